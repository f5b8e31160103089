ghost use Rattle.std.specs.Prelude.{◌≡◌, ◌+◌, ◌≤◌, ◌<◌, length};
ghost use Rattle.set_table.specs.Entries.{words_of, entry_from, table_words, entry_in};
ghost use Rattle.set_table.specs.Room.{most_bodies};
ghost use Rattle.set_table.specs.Table.{with_entry};

// How many words of the table an entry takes.
pub const ENTRY_WORDS: usize = 6;

// The most bodies that a set may have.
pub(crate) const MOST_BODIES: u32 = 64;

// A body's entry in the table: its kind and divisions, its first vertex and how many it has, its
// first triangle and how many it has. The kind is a number, since a lent table may hold any.
#[derive(Clone, Copy, Debug, PartialEq, Eq)]
pub struct Entry {
    pub kind: u32,
    pub divisions: u32,
    pub vertex: u32,
    pub vertices: u32,
    pub triangle: u32,
    pub triangles: u32,
}

impl From<[u32; ENTRY_WORDS]> for Entry {
    ghost from_gives = { λ words entry. entry ≡ entry_from words };

    // The entry with these words.
    fn from(words: [u32; ENTRY_WORDS]) -> Entry {
        let [kind, divisions, vertex, vertices, triangle, triangles] = words;
        Entry {
            kind,
            divisions,
            vertex,
            vertices,
            triangle,
            triangles,
        }
    }
}

impl From<Entry> for [u32; ENTRY_WORDS] {
    ghost from_gives = { λ entry words. words ≡ words_of entry };

    // Its words, in the order in which the table has them.
    fn from(entry: Entry) -> [u32; ENTRY_WORDS] {
        [
            entry.kind,
            entry.divisions,
            entry.vertex,
            entry.vertices,
            entry.triangle,
            entry.triangles,
        ]
    }
}

// How many words a table of `bodies` bodies has, which is where the next entry begins.
pub fn table_words(bodies: u32) -> usize
    ensures { result ≡ table_words bodies }
{
    1 + ENTRY_WORDS * bodies as usize
}

// Reads entry `j` of a table that has it.
pub(crate) fn read_entry(table: &[u32], j: u32) -> Entry
    requires j_lt_most_bodies { j < most_bodies }
    requires j_in_bounds { table_words (j + 1) ≤ length table.now }
    ensures { result ≡ entry_in table.now j }
{
    let at = table_words(j);
    let words = <[u32; ENTRY_WORDS]>::try_from(&table[at..at + ENTRY_WORDS]).unwrap();
    words.into()
}

// Writes the entry that follows those of `bodies` bodies, and raises word 0 to count it.
pub fn write_entry(table: &mut [u32], bodies: u32, entry: Entry)
    requires bodies_lt_most_bodies { bodies < most_bodies }
    requires bodies_in_bounds { table_words (bodies + 1) ≤ length table.old }
    ensures { table.new ≡ with_entry bodies entry table.old }
{
    let at = table_words(bodies);
    let words: [u32; ENTRY_WORDS] = entry.into();
    table[at..at + ENTRY_WORDS].copy_from_slice(&words);
    table[0] = bodies + 1;
}
