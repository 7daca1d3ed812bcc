// The numbers of a net's transitions, told from the diagram's table alone: the net is not built for them.
#![tactic(auto)]

ghost use Rattle.std.specs.Prelude.{◌≡◌, ◌*◌, ◌≤◌};
ghost use Rattle.net_numbers.specs.Numbers.{own_number, branch_number, number_as, first_number_in};

use diagram_table::OWNER;

// How many transitions a row of a kind has, whatever it stands in; only a BRANCH asks for that.
#[tactic(auto, unfolding(crate::specs::Numbers::own_number))]
fn own_number(kind: u16) -> usize
    ensures { (result ≡ own_number kind) × (result ≤ 2) }
{
    match kind {
        kinds::FUNCTION | kinds::IT_OPEN => 2,
        kinds::END | kinds::OR_OPEN | kinds::BRANCH => 0,
        _ => 1,
    }
}

// A BRANCH of an OR has one, `construct` being the kind of its construct's open row.
#[tactic(auto, unfolding(crate::specs::Numbers::branch_number))]
fn branch_number(construct: u16, kind: u16) -> usize
    ensures { (result ≡ branch_number construct kind) × (result ≤ 1) }
{
    (kind == kinds::BRANCH && construct == kinds::OR_OPEN) as usize
}

// How many transitions a row has: a sum instead of a choice, which would go another way at every row.
#[tactic(auto, unfolding(crate::specs::Numbers::number_as))]
fn number(construct: u16, kind: u16) -> usize
    ensures { (result ≡ number_as construct kind) × (result ≤ 3) }
{
    own_number(kind) + branch_number(construct, kind)
}

// The number of a row's first transition: those of the rows below stand before it. Of the row behind the last it is how many there are.
#[tactic(auto, unfolding(crate::specs::Numbers::first_number_in))]
pub fn first_number(table: &[u16], row: u16) -> usize
    ensures { (result ≡ first_number_in table.now row) × (result ≤ 3 * row) }
{
    let mut sum: usize = 0;
    for below in 0..row as u32 {
        let opened = diagram_table::cell(table, OWNER, below);
        let construct = diagram_table::kind(table, opened as u32);
        let kind = diagram_table::kind(table, below);
        sum += number(construct, kind);
    }
    sum
}
