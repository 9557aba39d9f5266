//! Tables of prices in certificates: their values, and their faults.
use crate::week_files::two_nurses;
use rota_certificate_read::read_certificate;
use rota_core::Kind::{Ended, Limit, NoNumber, OtherWord, Repeated, Unknown};
use rota_core::{Certificate, DAYS, FileFault, FileName, Kind, MAX_FILE_LEN, MAX_PRICE, Prices};
use rota_read::read_scenario;
use std::alloc::{AllocError, Global};
use std::process::Abort;
use std::test::Fail;

// The certificate that the text spells for plans of one week, for three shift types and two skills.
fn certificate_of(alloc: Global, text: &[u8]) -> Result<Certificate, FileFault> {
    let scenario = read_scenario(alloc, two_nurses().scenario)?;
    read_certificate(alloc, &scenario, 1, text)
}

// The sum of the prices of three shift types and two skills.
fn sum_of(prices: &Prices) -> Option<u64> {
    if prices.shifts() != 3 || prices.skills() != 2 {
        return None;
    }
    let mut sum: u64 = 0;
    for day in 0..DAYS {
        for shift in 0..3 {
            for skill in 0..2 {
                sum = sum.saturating_add(u64::from(prices.price(day, shift, skill)));
            }
        }
    }
    Some(sum)
}

const TWO_ROWS: &[u8] = b"CERTIFICATE other
WEEKS = 1
PRICES = 1

ROWS = 2
Late Nurse 2250 0 3000 0 0 0 0007
Early Head 0 999999999 0 0 0 0 1
LEAVES = 1
LEAF 0 SURCHARGES = 0
";

// No row names the other four pairs.
fn has_values(prices: &Prices) -> bool {
    if prices.shifts() != 3 || prices.skills() != 2 {
        return false;
    }
    let of_late = (
        prices.price(0, 1, 1),
        prices.price(2, 1, 1),
        prices.price(6, 1, 1),
    );
    let of_early = (prices.price(1, 0, 0), prices.price(6, 0, 0));
    of_late == (2250, 3000, 7) && of_early == (MAX_PRICE, 1) && sum_of(prices) == Some(1000005257)
}

// The only table has these prices.
fn has_table(certificate: &Certificate) -> bool {
    let lists = &certificate.prices;
    lists.len() == 1 && lists[0].len() == 1 && has_values(&lists[0][0])
}

#[test]
fn prices_have_their_values(rt: HostRuntime) {
    match certificate_of(rt.alloc(), TWO_ROWS) {
        Ok(certificate) => assert!(rt; has_table(&certificate)),
        Err(fault) => panic!(rt; "{fault}"),
    }
}

#[test]
fn a_price_that_is_set(rt: HostRuntime) -> Result<(), Fail> {
    let mut prices = Prices::new(rt.alloc(), 3, 2)?;
    assert_eq!(rt; sum_of(&prices), Some(0));
    prices.set(6, 2, 1, 5);
    prices.set(6, 2, 1, 22500);
    prices.set(0, 0, 0, 1);
    assert_eq!(rt;
        (prices.price(6, 2, 1), sum_of(&prices)),
        (22500, Some(22501))
    );
    Ok(())
}

/// A text, and the kind and line of its fault.
type Faulty = (&'static [u8], Kind, u32);

macro_rules! faults {
    ($($text:literal => $kind:ident $line:literal;)*) => { &[$(($text, $kind, $line)),*] };
}

const FAULTS: &[Faulty] = faults! {
    b"CERTIFICATE s1 WEEKS = 1 PRICES = 1\nrows = 0" => OtherWord 2;
    b"CERTIFICATE s1 WEEKS = 1 PRICES = 1\nROWS : 0" => OtherWord 2;
    b"CERTIFICATE s1 WEEKS = 1 PRICES = 1\nROWS = two" => NoNumber 2;
    b"CERTIFICATE s1 WEEKS = 1 PRICES = 1\nROWS = (" => NoNumber 2;
    b"CERTIFICATE s1 WEEKS = 1 PRICES = 1\nROWS = 10000" => Limit 2;
    b"CERTIFICATE s1 WEEKS = 1 PRICES = 1\nROWS = 0\n=" => OtherWord 3;
    b"CERTIFICATE s1 WEEKS = 1 PRICES = 1\nROWS = 1\n" => Ended 2;
    b"CERTIFICATE s1 WEEKS = 1 PRICES = 1\nROWS = 1\nEarly" => Ended 3;
    b"CERTIFICATE s1 WEEKS = 1 PRICES = 1\nROWS = 1\nMorning Head 0 0 0 0 0 0 0" => Unknown 3;
    b"CERTIFICATE s1 WEEKS = 1 PRICES = 1\nROWS = 1\nNone Head 0 0 0 0 0 0 0" => Unknown 3;
    b"CERTIFICATE s1 WEEKS = 1 PRICES = 1\nROWS = 1\n= Head 0 0 0 0 0 0 0" => OtherWord 3;
    b"CERTIFICATE s1 WEEKS = 1 PRICES = 1\nROWS = 1\nHead\nEarly 0 0 0 0 0 0 0" => Unknown 3;
    b"CERTIFICATE s1 WEEKS = 1 PRICES = 1\nROWS = 1\nEarly\nDoctor 0 0 0 0 0 0 0" => Unknown 4;
    b"CERTIFICATE s1 WEEKS = 1 PRICES = 1\nROWS = 1\nEarly\n, 0 0 0 0 0 0 0" => OtherWord 4;
    b"CERTIFICATE s1 WEEKS = 1 PRICES = 1\nROWS = 1\nEarly Head\n-1 0 0 0 0 0 0" => NoNumber 4;
    b"CERTIFICATE s1 WEEKS = 1 PRICES = 1\nROWS = 1\nEarly Head 0 0 0 0 0 0\n22.5" => NoNumber 4;
    b"CERTIFICATE s1 WEEKS = 1 PRICES = 1\nROWS = 1\nEarly Head 0 0 0\n= 0 0 0" => NoNumber 4;
    b"CERTIFICATE s1 WEEKS = 1 PRICES = 1\nROWS = 1\nEarly Head 0 0 0 0 0 0\n1000000000" => Limit 4;
    b"CERTIFICATE s1 WEEKS = 1 PRICES = 1\nROWS = 1\nEarly Head 99999999999999999999999999999999999999" => Limit 3;
    b"CERTIFICATE s1 WEEKS = 1 PRICES = 1\nROWS = 1\nEarly Head 0 0 0 0 0 0\n" => Ended 3;
    b"CERTIFICATE s1 WEEKS = 1 PRICES = 1\nROWS = 1\nEarly Head 0 0 0 0 0 0 0\n0" => OtherWord 4;
    b"CERTIFICATE s1 WEEKS = 1 PRICES = 1\nROWS = 3\nEarly Head 0 0 0 0 0 0 0 Late Head 0 0 0 0 0 0 0\nEarly\nHead" => Repeated 5;
};

fn check_fault(rt: &impl Abort, alloc: Global, text: &[u8], kind: Kind, line: u32) {
    let file = FileName::Certificate;
    let wanted = FileFault::Bad { kind, file, line };
    let found = certificate_of(alloc, text).err();
    assert!(rt; found == Some(wanted), "{wanted}");
}

#[test]
fn faults_of_prices(rt: HostRuntime) {
    for (text, kind, line) in FAULTS {
        check_fault(&rt, rt.alloc(), text, *kind, *line);
    }
}

fn sized(alloc: Global, length: usize) -> Result<Vec<u8>, AllocError> {
    let mut text = Vec::from_slice(alloc, TWO_ROWS)?;
    text.resize(length, b' ')?;
    Ok(text)
}

#[test]
fn longest_certificate(rt: HostRuntime) -> Result<(), Fail> {
    let text = sized(rt.alloc(), MAX_FILE_LEN)?;
    assert!(rt; certificate_of(rt.alloc(), &text).is_ok());
    let text = sized(rt.alloc(), MAX_FILE_LEN + 1)?;
    check_fault(&rt, rt.alloc(), &text, Limit, 0);
    Ok(())
}
