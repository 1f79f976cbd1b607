// The tables that a program lends for what is printed of them.
ghost use Rattle.std.specs.Prelude.{◌≡◌, take};

// A text within its limit has fewer nodes, and fewer methods, than bytes.
pub const ROOM: usize = 4096;

// What was written of a table that has room for it; of a smaller one all that it has.
pub fn first<T>(table: &[T], count: u16) -> &[T]
    ensures those_written { result.now ≡ take count table.now }
{
    table.get(..count as usize).unwrap_or(table)
}
