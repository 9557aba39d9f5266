//! Reads a certificate's file.

ghost use Rattle.std.specs.Prelude.{◌≡◌, ◌+◌, ◌*◌, ◌-◌, ◌<◌, ◌≤◌, ◌^◌, [], true, IfOk, IfErr, map};
ghost use Rattle.rota_core.specs.TreeNodes.{leaf_of, node_of};
ghost use Rattle.rota_core.specs.declared.fault.FileName.TheVariants as files;
ghost use Rattle.rota_certificate_read.specs.FactsLayout.{keyword};
ghost use Rattle.rota_layout.specs.FileAnswers.{IsFaultOf};
ghost use Rattle.rota_layout.specs.Layout.{repeat};
ghost use Rattle.rota_certificate_read.specs.CertificateLayout.{certificate, certificate_of, IsCertificateOf, leaf, list_row, node_word, SpellsCertificate, surcharge_row, table_row, tree};
ghost use Rattle.rota_certificate_read.specs.CertificateRows.{lists_of};
ghost use Rattle.rota_certificate_read.specs.TreeRows.{may_end, may_split, no_nodes, node_row, part_of, tree_nodes};
ghost use Rattle.rota_layout.specs.Reading.{read_layout, read_text, Reads, ReadsFile};

use crate::facts::fact;
use crate::prices::price_table;
use rota_core::{
    CaseTree, Certificate, FileFault, FileName, Kind, Leaf, MAX_NUMBER, MAX_PRICE, Node, Prices,
    Scenario,
};
use rota_layout::{Cursor, LayoutError};
use std::alloc::Global;

/// The word that a node begins with.
#[derive(Clone, Copy)]
pub enum NodeWord {
    Split,
    Leaf,
}

/// A part of a tree: its nodes in preorder, and the numbers of splits and of leaves among them.
#[derive(Drop)]
pub struct TreeRows {
    pub nodes: Vec<Node>,
    pub splits: u16,
    pub leaves: u16,
}

impl TreeRows {
    // Whether a split may follow, in a tree with this number of leaves.
    fn may_split(&self, all: u16) -> bool
        ensures { result ≡ may_split all (part_of self.now) }
    {
        u32::from(self.splits) + 1 < u32::from(all)
    }

    // Whether a leaf may follow.
    fn may_end(&self, all: u16) -> bool
        ensures may { result ≡ may_end all (part_of self.now) }
        ensures room { result ≡ true → self.now.leaves + 1 < 2 ^ 16 }
    {
        self.leaves < self.splits || u32::from(self.leaves) + 1 == u32::from(all)
    }

    // The node that begins with the word, if it may follow.
    fn node_word(&self, all: u16, word: &[u8]) -> Option<NodeWord>
        ensures word { result ≡ node_word (may_split all (part_of self.now)) (may_end all (part_of self.now)) word.now }
        ensures split { result ≡ Some NodeWord.Split → self.now.splits + 1 < 2 ^ 16 }
        ensures leaf { result ≡ Some NodeWord.Leaf → self.now.leaves + 1 < 2 ^ 16 }
    {
        if word == b"SPLIT".as_slice() && self.may_split(all) {
            return Some(NodeWord::Split);
        }
        if word == b"LEAF".as_slice() && self.may_end(all) {
            return Some(NodeWord::Leaf);
        }
        None
    }
}

// Reads one more table of prices.
#[tactic(auto, unfolding(crate::specs::CertificateLayout::table_row, rota_layout::specs::Reading::read_layout))]
fn table_row(
    cursor: &mut Cursor<'_>,
    alloc: Global,
    scenario: &Scenario,
    tables: &mut Vec<Prices>,
) -> Result<(), LayoutError>
    ensures { Reads (λ _. tables.new.items) result cursor.new (read_layout (table_row scenario.now tables.old.items) cursor.old) }
{
    let table = price_table(cursor, alloc, scenario)?;
    Ok(tables.push(table)?)
}

// Reads a table of prices for each week.
#[tactic(auto, using(rota_layout::proofs::ReadingLaws::row_steps))]
fn table_rows(
    cursor: &mut Cursor<'_>,
    alloc: Global,
    scenario: &Scenario,
    weeks: u8,
) -> Result<Vec<Prices>, LayoutError>
    ensures { Reads (λ v. v.items) result cursor.new (read_layout (repeat weeks (table_row scenario.now) []) cursor.old) }
{
    let mut tables = Vec::new(alloc);
    for _ in 0..weeks {
        table_row(cursor, alloc, scenario, &mut tables)?;
    }
    Ok(tables)
}

// Reads one more list of prices.
#[tactic(auto, unfolding(crate::specs::CertificateLayout::list_row, rota_layout::specs::Reading::read_layout))]
fn list_row(
    cursor: &mut Cursor<'_>,
    alloc: Global,
    scenario: &Scenario,
    weeks: u8,
    lists: &mut Vec<Vec<Prices>>,
) -> Result<(), LayoutError>
    ensures { Reads (λ _. lists_of lists.new.items) result cursor.new (read_layout (list_row scenario.now weeks (lists_of lists.old.items)) cursor.old) }
{
    let tables = table_rows(cursor, alloc, scenario, weeks)?;
    Ok(lists.push(tables)?)
}

// Reads this number of lists of prices.
#[tactic(auto, using(rota_layout::proofs::ReadingLaws::row_steps))]
fn list_rows(
    cursor: &mut Cursor<'_>,
    alloc: Global,
    scenario: &Scenario,
    weeks: u8,
    count: u16,
) -> Result<Vec<Vec<Prices>>, LayoutError>
    ensures { Reads (λ v. lists_of v.items) result cursor.new (read_layout (repeat count (list_row scenario.now weeks) []) cursor.old) }
{
    let mut lists = Vec::new(alloc);
    for _ in 0..count {
        list_row(cursor, alloc, scenario, weeks, &mut lists)?;
    }
    Ok(lists)
}

// Reads one more surcharge.
#[tactic(auto, unfolding(crate::specs::CertificateLayout::surcharge_row, rota_layout::specs::Reading::read_layout))]
fn surcharge_row(cursor: &mut Cursor<'_>, surcharges: &mut Vec<u32>) -> Result<(), LayoutError>
    ensures { Reads (λ _. surcharges.new.items) result cursor.new (read_layout (surcharge_row surcharges.old.items) cursor.old) }
{
    let surcharge = cursor.long_number(0, MAX_PRICE)?;
    Ok(surcharges.push(surcharge)?)
}

// Reads this number of surcharges.
#[tactic(auto, using(rota_layout::proofs::ReadingLaws::row_steps))]
fn surcharge_rows(
    cursor: &mut Cursor<'_>,
    alloc: Global,
    count: u16,
) -> Result<Vec<u32>, LayoutError>
    ensures { Reads (λ v. v.items) result cursor.new (read_layout (repeat count surcharge_row []) cursor.old) }
{
    let mut surcharges = Vec::new(alloc);
    for _ in 0..count {
        surcharge_row(cursor, &mut surcharges)?;
    }
    Ok(surcharges)
}

// The rest of a leaf, for this number of prices.
#[tactic(auto, unfolding(crate::specs::CertificateLayout::leaf, rota_layout::specs::Reading::read_layout))]
fn leaf(cursor: &mut Cursor<'_>, alloc: Global, prices: u16) -> Result<Leaf, LayoutError>
    requires { 1 ≤ prices }
    ensures { Reads leaf_of result cursor.new (read_layout (leaf prices) cursor.old) }
{
    let number = cursor.number(0, prices - 1)?;
    let count = cursor.setting(b"SURCHARGES", 0, MAX_NUMBER)?;
    let surcharges = surcharge_rows(cursor, alloc, count)?;
    Ok(Leaf {
        prices: usize::from(number),
        surcharges,
    })
}

// The word of the next node of the tree.
#[tactic(auto, unfolding(crate::specs::FactsLayout::keyword, rota_layout::specs::Reading::read_layout))]
fn node_word(cursor: &mut Cursor<'_>, tree: &TreeRows, all: u16) -> Result<NodeWord, LayoutError>
    ensures read { Reads (λ word. word) result cursor.new (read_layout (keyword (node_word (may_split all (part_of tree.now)) (may_end all (part_of tree.now)))) cursor.old) }
    ensures split { IfOk result (λ word. word ≡ NodeWord.Split → tree.now.splits + 1 < 2 ^ 16) }
    ensures leaf { IfOk result (λ word. word ≡ NodeWord.Leaf → tree.now.leaves + 1 < 2 ^ 16) }
{
    let token = cursor.token()?;
    let Some(word) = tree.node_word(all, token.word) else {
        return Err(token.fault(Kind::OtherWord));
    };
    Ok(word)
}

// Reads one more node of a tree with this number of leaves in all.
#[tactic(auto, unfolding(crate::specs::TreeRows::node_row, crate::specs::TreeRows::node_after, rota_layout::specs::Reading::read_layout))]
fn node_row(
    cursor: &mut Cursor<'_>,
    alloc: Global,
    scenario: &Scenario,
    weeks: u8,
    prices: u16,
    all: u16,
    tree: &mut TreeRows,
) -> Result<(), LayoutError>
    requires { 1 ≤ prices }
    ensures { Reads (λ _. part_of tree.new) result cursor.new (read_layout (node_row scenario.now weeks prices all (part_of tree.old)) cursor.old) }
{
    match node_word(cursor, tree, all)? {
        NodeWord::Split => {
            let fact = fact(cursor, scenario, weeks)?;
            tree.nodes.push(Node::Split(fact))?;
            tree.splits += 1;
        }
        NodeWord::Leaf => {
            let leaf = leaf(cursor, alloc, prices)?;
            tree.nodes.push(Node::Leaf(leaf))?;
            tree.leaves += 1;
        }
    }
    Ok(())
}

// Reads the rows of the nodes of a tree with this number of leaves.
#[tactic(auto, using(rota_layout::proofs::ReadingLaws::row_steps))]
fn node_rows(
    cursor: &mut Cursor<'_>,
    alloc: Global,
    scenario: &Scenario,
    weeks: u8,
    prices: u16,
    all: u16,
) -> Result<TreeRows, LayoutError>
    requires prices { 1 ≤ prices }
    requires all { 1 ≤ all }
    ensures { Reads part_of result cursor.new (read_layout (repeat (2 * all - 1) (node_row scenario.now weeks prices all) no_nodes) cursor.old) }
{
    let mut tree = TreeRows {
        nodes: Vec::new(alloc),
        splits: 0,
        leaves: 0,
    };
    let count = 2 * u32::from(all) - 1;
    for _ in 0..count {
        node_row(cursor, alloc, scenario, weeks, prices, all, &mut tree)?;
    }
    Ok(tree)
}

// Reads the nodes of a tree with this number of leaves.
#[tactic(auto, using(crate::proofs::TreeWalk::tree_walks))]
fn tree_nodes(
    cursor: &mut Cursor<'_>,
    alloc: Global,
    scenario: &Scenario,
    weeks: u8,
    prices: u16,
    leaves: u16,
) -> Result<Vec<Node>, LayoutError>
    requires prices { 1 ≤ prices }
    requires some { 1 ≤ leaves }
    ensures { Reads (λ nodes. map node_of nodes.items) result cursor.new (read_layout (tree_nodes scenario.now weeks prices leaves) cursor.old) }
{
    let rows = node_rows(cursor, alloc, scenario, weeks, prices, leaves)?;
    Ok(rows.nodes)
}

// Reads a tree with this number of leaves.
#[tactic(auto, using(crate::proofs::TreeWalk::tree_made))]
fn tree(
    cursor: &mut Cursor<'_>,
    alloc: Global,
    scenario: &Scenario,
    weeks: u8,
    prices: u16,
    leaves: u16,
) -> Result<CaseTree, LayoutError>
    requires prices { 1 ≤ prices }
    requires some { 1 ≤ leaves }
    ensures { Reads (λ tree. tree) result cursor.new (read_layout (tree scenario.now weeks prices leaves) cursor.old) }
{
    let nodes = tree_nodes(cursor, alloc, scenario, weeks, prices, leaves)?;
    Ok(CaseTree { nodes })
}

// The certificate of the whole text.
#[tactic(auto, using(rota_layout::proofs::ReadingLaws::front_fails), unfolding(crate::specs::CertificateLayout::certificate, rota_layout::specs::Layout::exactly, rota_layout::specs::Reading::read_layout, rota_layout::specs::Reading::read_text))]
fn whole_certificate(
    alloc: Global,
    scenario: &Scenario,
    weeks: u8,
    text: &[u8],
) -> Result<Certificate, LayoutError>
    ensures { ReadsFile certificate_of result (read_text (certificate scenario.now weeks) text.now) }
{
    let mut cursor = Cursor::open(text)?;
    cursor.exactly(b"CERTIFICATE")?;
    cursor.word()?;
    cursor.setting(b"WEEKS", u16::from(weeks), u16::from(weeks))?;
    let count = cursor.setting(b"PRICES", 1, MAX_NUMBER)?;
    let prices = list_rows(&mut cursor, alloc, scenario, weeks, count)?;
    let leaves = cursor.setting(b"LEAVES", 1, MAX_NUMBER)?;
    let tree = tree(&mut cursor, alloc, scenario, weeks, count, leaves)?;
    cursor.finish()?;
    Ok(Certificate { prices, tree })
}

/// Returns the certificate that the text spells, for a scenario and plans of this number of weeks.
///
/// The text is a certificate's file, in the layout of `docs/formats.md`: lists of prices, each with a table for each
/// week, and the nodes of the tree in preorder. The tree has the number of leaves that the file says.
///
/// # Errors
///
/// `Bad` is the text's one fault: the fault of the first token that does not fit its position, with the
/// token's line, or `Ended`, with the line of the last token (1 if there is none). A text of more than
/// `MAX_FILE_LEN` bytes has `Limit` on line 0. `Memory` is returned only if memory runs out before a fault
/// was found.
#[tactic(auto, using(crate::proofs::CertificateLaws::certificate_steps))]
pub fn read_certificate(
    alloc: Global,
    scenario: &Scenario,
    weeks: u8,
    text: &[u8],
) -> Result<Certificate, FileFault>
    ensures spelled { IfOk result (SpellsCertificate scenario.now weeks text.now) }
    ensures shape { IfOk result (IsCertificateOf scenario.now weeks) }
    ensures fault { IfErr result (IsFaultOf files.Certificate (certificate scenario.now weeks) text.now) }
{
    whole_certificate(alloc, scenario, weeks, text).map_err(|stop| stop.in_file(
        FileName::Certificate,
    ))
}
