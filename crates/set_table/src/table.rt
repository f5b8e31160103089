ghost use Rattle.std.specs.Prelude.{◌≡◌};
ghost use Rattle.answers.specs.Answers.{answer_of};
ghost use Rattle.set_table.specs.Table.{entry_sound, entries_fit, bodies_read, reading_of};

use crate::entries::{Entry, MOST_BODIES, read_entry, table_words};
use crate::totals::Totals;
use answers::Refusal;
use descriptions::Kind;

// Whether an entry has a known kind and may follow bodies of these totals.
#[tactic(auto, using(crate::proofs::Words::known_kinds), unfolding(crate::specs::Table::entry_sound))]
fn is_entry_sound(entry: Entry, before: Totals) -> bool
    ensures { result ≡ entry_sound entry before }
{
    Kind::try_from(entry.kind).is_ok()
        && entry.vertex as usize == before.vertices
        && entry.triangle as usize == before.triangles
}

// Whether a table of `length` words may have `bodies` bodies, and has so many entries.
fn are_entries_held(bodies: u32, length: usize) -> bool
    ensures { result ≡ entries_fit bodies length }
{
    bodies <= MOST_BODIES && table_words(bodies) <= length
}

// How many bodies the table says that it has, if it has word 0 and so many entries.
fn body_count(table: &[u32]) -> Option<u32>
    ensures { result ≡ bodies_read table.now }
{
    let bodies = *table.first()?;
    are_entries_held(bodies, table.len()).then_some(bodies)
}

// Reads what the table says, or finds it damaged (1). `vertices` and `triangles` are the lengths
// of the other two buffers: a `Lengths` would also hold the table's, which the table has
// itself. The sums of 64 counts of 32 bits do not wrap a usize.
pub fn read(table: &[u32], vertices: usize, triangles: usize) -> Result<Totals, Refusal>
    ensures { answer_of result ≡ reading_of table.now vertices triangles }
{
    let bodies = body_count(table).ok_or(Refusal::DamagedTable)?;
    let mut totals = Totals::default();
    for j in 0..bodies {
        let entry = read_entry(table, j);
        if !is_entry_sound(entry, totals) {
            return Err(Refusal::DamagedTable);
        }
        totals.bodies += 1;
        totals.vertices += entry.vertices as usize;
        totals.triangles += entry.triangles as usize;
    }
    if !surface::fits(totals.vertices as u64, vertices) {
        return Err(Refusal::DamagedTable);
    }
    if !surface::fits(totals.triangles as u64, triangles) {
        return Err(Refusal::DamagedTable);
    }
    Ok(totals)
}
