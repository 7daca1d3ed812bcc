// The rules behind the walk, asked where no row is at fault in it: outlets and EXITs one to one (49), no scenario that falls through (50), no loop
// that spends no time (45). The first two go by the structure of the rows, which a plant without a box need not have for its verdict.
// Table and number of rows go side by side through the judges: the table is written between them, so that no value can hold both.
#![tactic(auto)]

ghost use Rattle.diagram_rules.specs.Rules.{BoxesRead, RulesRead};

use effbd::Refusal;

// Judges the boxes, if there are any; the table then has the structure of its rows.
fn read_boxes(table: &mut [u16], rows: u16) -> Result<(), Refusal>
    ensures { BoxesRead rows table.old table.new result }
{
    if !outlets::has_box(table, rows) {
        return Ok(());
    }
    diagram_structure::fill_structure(table, rows);
    outlets::read_outlets(table, rows)?;
    scenarios::read_scenarios(table, rows)
}

// Judges the boxes, then the loops.
pub fn read_rules(table: &mut [u16], rows: u16) -> Result<(), Refusal>
    ensures { RulesRead rows table.old table.new result }
{
    read_boxes(table, rows)?;
    loop_times::read_loops(table, rows)
}
