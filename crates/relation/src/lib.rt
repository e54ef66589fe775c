// Rows of a book in its bytes: the cell of an attribute. A row is given by the position of its record and the attribute
// set of its object.
#![tactic(auto)]

ghost use Rattle.std.specs.Prelude.{◌≡◌};
ghost use Rattle.sets.specs.Sets.{◌∈◌};
ghost use Rattle.relation.specs.Tables.{cell_of};
ghost use Rattle.relation.specs.BookRows.{row_of, RowThere};

// The cell of attribute a, which the object has: cells follow ascending attribute id.
pub fn cell(bytes: &[u8], at: usize, s: u32, a: u32) -> u32
    requires { RowThere bytes.now at s × a ∈ s }
    ensures { result ≡ cell_of s (row_of bytes.now at) a }
{
    let place = sets::rank(s, a) as usize;
    records::word_at(bytes, at + 2 + 4 * place)
}
