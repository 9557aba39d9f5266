//! Reads tables of prices.

ghost use Rattle.std.specs.Prelude.{◌≡◌, ◌*◌, length, IfOk};
ghost use Rattle.rota_core.specs.Limits.{max_price};
ghost use Rattle.rota_layout.specs.Layout.{many, number, repeat};
ghost use Rattle.rota_layout.specs.DayRows.{no_day_rows};
ghost use Rattle.rota_certificate_read.specs.PricesLayout.{price_row, price_table, table_for};
ghost use Rattle.rota_layout.specs.Reading.{read_layout, Reads};

use rota_core::{DAYS, MAX_NUMBER, MAX_PRICE, Prices, Scenario};
use rota_layout::{Cursor, LayoutError, day_table};
use std::alloc::{AllocError, Global};

/// The prices of Monday to Sunday, if a row has them.
type PriceRow = Option<[u32; DAYS as usize]>;

fn price(cursor: &mut Cursor<'_>) -> Result<u32, LayoutError>
    ensures { Reads (λ price. price) result cursor.new (read_layout (number 0 max_price) cursor.old) }
{
    cursor.long_number(0, MAX_PRICE)
}

// The prices of Monday to Sunday.
#[tactic(auto, unfolding(rota_layout::specs::Layout::many, rota_layout::specs::Layout::repeat, rota_layout::specs::Layout::one_more, rota_layout::specs::Reading::read_layout))]
fn prices_of_days(cursor: &mut Cursor<'_>) -> Result<[u32; DAYS as usize], LayoutError>
    ensures { Reads (λ prices. prices) result cursor.new (read_layout (many DAYS (λ _. number 0 max_price)) cursor.old) }
{
    let monday = price(cursor)?;
    let tuesday = price(cursor)?;
    let wednesday = price(cursor)?;
    let thursday = price(cursor)?;
    let friday = price(cursor)?;
    let saturday = price(cursor)?;
    let sunday = price(cursor)?;
    Ok([
        monday, tuesday, wednesday, thursday, friday, saturday, sunday,
    ])
}

// Reads one more row.
#[tactic(auto, using(rota_layout::proofs::ReadingLaws::day_by_pair), unfolding(crate::specs::PricesLayout::price_row, rota_layout::specs::Reading::read_layout))]
fn price_row(
    cursor: &mut Cursor<'_>,
    scenario: &Scenario,
    rows: &mut [PriceRow],
) -> Result<(), LayoutError>
    requires { length rows.old ≡ length scenario.now.shifts * length scenario.now.skills }
    ensures { Reads (λ _. rows.new) result cursor.new (read_layout (price_row scenario.now rows.old) cursor.old) }
{
    let shift = cursor.shift(scenario)?;
    let pair = cursor.new_pair(scenario, shift, rows)?;
    rows[pair] = Some(prices_of_days(cursor)?);
    Ok(())
}

// Reads this number of rows.
#[tactic(auto, using(rota_layout::proofs::ReadingLaws::row_steps))]
fn price_rows(
    cursor: &mut Cursor<'_>,
    scenario: &Scenario,
    count: u16,
    rows: &mut [PriceRow],
) -> Result<(), LayoutError>
    requires { length rows.old ≡ length scenario.now.shifts * length scenario.now.skills }
    ensures { Reads (λ _. rows.new) result cursor.new (read_layout (repeat count (price_row scenario.now) rows.old) cursor.old) }
{
    for _ in 0..count {
        price_row(cursor, scenario, rows)?;
    }
    Ok(())
}

// The number of rows, and the rows: the price of each place of the table.
#[tactic(auto, unfolding(crate::specs::PricesLayout::price_table, rota_layout::specs::Reading::read_layout))]
fn prices_of_rows(
    cursor: &mut Cursor<'_>,
    alloc: Global,
    scenario: &Scenario,
) -> Result<Vec<u32>, LayoutError>
    ensures { Reads (λ v. table_for scenario.now v.items) result cursor.new (read_layout (price_table scenario.now) cursor.old) }
{
    let count = cursor.setting(b"ROWS", 0, MAX_NUMBER)?;
    let mut rows = no_rows(alloc, scenario)?;
    price_rows(cursor, scenario, count, &mut rows)?;
    Ok(day_table(alloc, &rows, 0)?)
}

/// The number of rows, and the table that the rows make.
pub fn price_table(
    cursor: &mut Cursor<'_>,
    alloc: Global,
    scenario: &Scenario,
) -> Result<Prices, LayoutError>
    ensures read { Reads (λ p. p) result cursor.new (read_layout (price_table scenario.now) cursor.old) }
    ensures shifts { IfOk result (λ p. p.shifts ≡ length scenario.now.shifts) }
    ensures skills { IfOk result (λ p. p.skills ≡ length scenario.now.skills) }
{
    let prices = prices_of_rows(cursor, alloc, scenario)?;
    Ok(Prices::of_table(scenario.shifts(), scenario.skills(), prices))
}

fn no_rows(alloc: Global, scenario: &Scenario) -> Result<Vec<PriceRow>, AllocError>
    ensures { IfOk result (λ v. v.items ≡ no_day_rows scenario.now) }
{
    let pairs = usize::from(scenario.shifts()) * usize::from(scenario.skills());
    vec![in alloc; None; pairs]
}
