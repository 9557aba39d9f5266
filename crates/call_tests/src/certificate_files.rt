//! Certificates' files: their values, and their faults.
use crate::week_files::two_nurses;
use rota_certificate_read::read_certificate;
use rota_core::Kind::{Ended, Limit, NoNumber, OtherWord, Trailing, Unknown};
use rota_core::{Certificate, DayChoice, Fact, FileFault, FileName, Kind, Node, Prices};
use rota_read::read_scenario;
use std::alloc::Global;
use std::process::Abort;

// The certificate that the text spells for plans of two weeks, for two nurses, three shift types and two skills.
fn certificate_of(alloc: Global, text: &[u8]) -> Result<Certificate, FileFault> {
    let scenario = read_scenario(alloc, two_nurses().scenario)?;
    read_certificate(alloc, &scenario, 2, text)
}

const THREE_LEAVES: &[u8] = b"CERTIFICATE other

WEEKS = 2
PRICES = 2
ROWS = 1
Late Nurse 7 0 0 0 0 0 0
ROWS = 0
ROWS = 0
ROWS = 1
Late Nurse 0 0 0 0 0 0 999999999
LEAVES = 3
SPLIT EVEN
LEAF 1 SURCHARGES = 0
SPLIT CHOICE 2 Bob Sun None
LEAF 0 SURCHARGES = 3
0 999999999 7
LEAF 1 SURCHARGES = 1
5
";

// The prices of a late Monday and of a late Sunday of a nurse.
fn late(prices: &Prices) -> Option<[u32; 2]> {
    if prices.shifts() != 3 || prices.skills() != 2 {
        return None;
    }
    Some([prices.price(0, 1, 1), prices.price(6, 1, 1)])
}

fn has_prices(weeks: &[Prices], wanted: [[u32; 2]; 2]) -> bool {
    weeks.len() == 2 && late(&weeks[0]) == Some(wanted[0]) && late(&weeks[1]) == Some(wanted[1])
}

fn is_leaf(node: &Node, prices: usize, surcharges: &[u32]) -> bool {
    match node {
        Node::Leaf(leaf) => leaf.prices == prices && leaf.surcharges.as_slice() == surcharges,
        Node::Split(_) => false,
    }
}

fn is_split(node: &Node, wanted: Fact) -> bool {
    match node {
        Node::Split(fact) => *fact == wanted,
        Node::Leaf(_) => false,
    }
}

fn has_values(certificate: &Certificate) -> bool {
    let off = Fact::Choice(DayChoice {
        week: 1,
        nurse: 1,
        day: 6,
        choice: None,
    });
    if certificate.prices.len() != 2 || certificate.tree.nodes.len() != 5 {
        return false;
    }
    let nodes = &certificate.tree.nodes;
    has_prices(&certificate.prices[0], [[7, 0], [0, 0]])
        && has_prices(&certificate.prices[1], [[0, 0], [0, 999999999]])
        && is_split(&nodes[0], Fact::EvenShiftRuns)
        && is_leaf(&nodes[1], 1, &[])
        && is_split(&nodes[2], off)
        && is_leaf(&nodes[3], 0, &[0, 999999999, 7])
        && is_leaf(&nodes[4], 1, &[5])
}

#[test]
fn certificates_have_their_values(rt: HostRuntime) {
    match certificate_of(rt.alloc(), THREE_LEAVES) {
        Ok(certificate) => assert!(rt; has_values(&certificate)),
        Err(fault) => panic!(rt; "{fault}"),
    }
}

// One leaf; a tree whose splits all come first, and one whose leaves come as soon as they may; a fact twice on one path.
const TREES: &[(&[u8], usize)] = &[
    (
        b"CERTIFICATE s1 WEEKS = 2 PRICES = 1 ROWS = 0 ROWS = 0 LEAVES = 1 LEAF 0 SURCHARGES = 0",
        1,
    ),
    (
        b"CERTIFICATE s1 WEEKS = 2 PRICES = 1 ROWS = 0 ROWS = 0 LEAVES = 4 SPLIT EVEN SPLIT EVEN SPLIT EVEN
        LEAF 0 SURCHARGES = 0 LEAF 0 SURCHARGES = 0 LEAF 0 SURCHARGES = 0 LEAF 0 SURCHARGES = 0",
        7,
    ),
    (
        b"CERTIFICATE s1 WEEKS = 2 PRICES = 1 ROWS = 0 ROWS = 0 LEAVES = 4 SPLIT EVEN LEAF 0 SURCHARGES = 0
        SPLIT EVEN LEAF 0 SURCHARGES = 0 SPLIT EVEN LEAF 0 SURCHARGES = 0 LEAF 0 SURCHARGES = 0",
        7,
    ),
];

#[test]
fn trees_have_their_nodes(rt: HostRuntime) {
    for (text, nodes) in TREES {
        let found = certificate_of(rt.alloc(), text);
        assert!(rt; found.is_ok_and(|certificate| certificate.tree.nodes.len() == *nodes));
    }
}

/// A text, and the kind and line of its fault.
type Faulty = (&'static [u8], Kind, u32);

macro_rules! faults {
    ($($text:literal => $kind:ident $line:literal;)*) => { &[$(($text, $kind, $line)),*] };
}

const FAULTS: &[Faulty] = faults! {
    b"" => Ended 1;
    b"PRICES s1\nROWS = 0" => OtherWord 1;
    b"CERTIFICATE\n= WEEKS = 2" => OtherWord 2;
    b"CERTIFICATE s1\nPRICES = 1" => OtherWord 2;
    b"CERTIFICATE s1\nWEEKS = 1\nPRICES = 1" => Limit 2;
    b"CERTIFICATE s1\nWEEKS = 3\nPRICES = 1" => Limit 2;
    b"CERTIFICATE s1\nWEEKS = 2\nPRICES = 0" => Limit 3;
    b"CERTIFICATE s1\nWEEKS = 2\nPRICES = 10000" => Limit 3;
    b"CERTIFICATE s1 WEEKS = 2 PRICES = 1\nROWS = 0\nLEAVES = 1" => OtherWord 3;
    b"CERTIFICATE s1 WEEKS = 2 PRICES = 1\nROWS = 0 ROWS = 0\nROWS = 0" => OtherWord 3;
    b"CERTIFICATE s1 WEEKS = 2 PRICES = 1\nROWS = 1\nLate Head 0 0 0 0 0 0 1000000000" => Limit 3;
    b"CERTIFICATE s1 WEEKS = 2 PRICES = 1\nROWS = 1\nLate Bob 0 0 0 0 0 0 0" => Unknown 3;
    b"CERTIFICATE s1 WEEKS = 2 PRICES = 1 ROWS = 0 ROWS = 0\nLEAVES = 0" => Limit 2;
    b"CERTIFICATE s1 WEEKS = 2 PRICES = 1 ROWS = 0 ROWS = 0\nLEAVES = 10000" => Limit 2;
    b"CERTIFICATE s1 WEEKS = 2 PRICES = 1 ROWS = 0 ROWS = 0\nLEAVES = 1\nSPLIT EVEN" => OtherWord 3;
    b"CERTIFICATE s1 WEEKS = 2 PRICES = 1 ROWS = 0 ROWS = 0\nLEAVES = 2\nLEAF 0 SURCHARGES = 0" => OtherWord 3;
    b"CERTIFICATE s1 WEEKS = 2 PRICES = 1 ROWS = 0 ROWS = 0\nLEAVES = 2\nSPLIT EVEN\nSPLIT EVEN" => OtherWord 4;
    b"CERTIFICATE s1 WEEKS = 2 PRICES = 1 ROWS = 0 ROWS = 0\nLEAVES = 2\nSPLIT EVEN LEAF 0 SURCHARGES = 0\nSPLIT" => OtherWord 4;
    b"CERTIFICATE s1 WEEKS = 2 PRICES = 1 ROWS = 0 ROWS = 0\nLEAVES = 2\nSPLIT EVEN LEAF 0 SURCHARGES = 0\n" => Ended 3;
    b"CERTIFICATE s1 WEEKS = 2 PRICES = 1 ROWS = 0 ROWS = 0\nLEAVES = 3\nSPLIT EVEN\nleaf 0" => OtherWord 4;
    b"CERTIFICATE s1 WEEKS = 2 PRICES = 1 ROWS = 0 ROWS = 0\nLEAVES = 2\nSPLIT\nODD" => OtherWord 4;
    b"CERTIFICATE s1 WEEKS = 2 PRICES = 1 ROWS = 0 ROWS = 0\nLEAVES = 2\nSPLIT CHOICE\n3 Ann Mon None" => Limit 4;
    b"CERTIFICATE s1 WEEKS = 2 PRICES = 1 ROWS = 0 ROWS = 0\nLEAVES = 1\nLEAF\n1 SURCHARGES = 0" => Limit 4;
    b"CERTIFICATE s1 WEEKS = 2 PRICES = 1 ROWS = 0 ROWS = 0\nLEAVES = 1\nLEAF\nSURCHARGES = 0" => NoNumber 4;
    b"CERTIFICATE s1 WEEKS = 2 PRICES = 1 ROWS = 0 ROWS = 0\nLEAVES = 1\nLEAF 0\n= 0" => OtherWord 4;
    b"CERTIFICATE s1 WEEKS = 2 PRICES = 1 ROWS = 0 ROWS = 0\nLEAVES = 1\nLEAF 0 SURCHARGES = 1\n1000000000" => Limit 4;
    b"CERTIFICATE s1 WEEKS = 2 PRICES = 1 ROWS = 0 ROWS = 0\nLEAVES = 1\nLEAF 0 SURCHARGES = 1" => Ended 3;
    b"CERTIFICATE s1 WEEKS = 2 PRICES = 1 ROWS = 0 ROWS = 0\nLEAVES = 1\nLEAF 0 SURCHARGES = 0\nLEAF" => Trailing 4;
};

fn check_fault(rt: &impl Abort, alloc: Global, text: &[u8], kind: Kind, line: u32) {
    let file = FileName::Certificate;
    let wanted = FileFault::Bad { kind, file, line };
    let found = certificate_of(alloc, text).err();
    assert!(rt; found == Some(wanted), "{wanted}");
}

#[test]
fn faults_of_certificates(rt: HostRuntime) {
    for (text, kind, line) in FAULTS {
        check_fault(&rt, rt.alloc(), text, *kind, *line);
    }
}
