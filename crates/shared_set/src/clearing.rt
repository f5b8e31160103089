ghost use Rattle.std.specs.Prelude.{◌≡◌};
ghost use Rattle.answers.specs.Answers.{answer_of};
ghost use Rattle.shared_set.specs.Set.{clear_answer, cleared};

use answers::Refusal;

// Empties the set: sets word 0 to 0, whatever the table holds. An empty table is refused (1).
pub fn clear(table: &mut [u32]) -> Result<(), Refusal>
    ensures answer { answer_of result ≡ clear_answer table.old }
    ensures table_after { table.new ≡ cleared table.old }
{
    if table.is_empty() {
        return Err(Refusal::DamagedTable);
    }
    table[0] = 0;
    Ok(())
}
