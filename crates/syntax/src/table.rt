// Tables in lent memory, and nodes into them.
ghost use Rattle.std.specs.Prelude.{◌≡◌, ◌+◌, ◌-◌, ◌^◌, ◌<◌, true, length, slice_set};
ghost use Rattle.syntax.specs.Parsing.{Put};

use crate::read::{Got, Size};
use crate::sight::Sight;
use nodes::node::{Form, Node};

// A table in lent memory: items that find no room are only counted, which a stack would not do.
#[derive(Drop)]
pub struct Table<'a, T> {
    items: &'a mut [T],
    count: u16,
}

impl<'a, T: Copy> Table<'a, T> {
    pub fn new(items: &'a mut [T]) -> Table<'a, T>
        ensures empty { result.count ≡ 0 }
        ensures items { result.items.now ≡ items.old }
        ensures lender { result.items.ghost_name ≡ items.entry.ghost_name }
    {
        Table::resume(items, 0)
    }

    // A table with what an earlier call left in it.
    pub fn resume(items: &'a mut [T], count: u16) -> Table<'a, T>
        ensures counted { result.count ≡ count }
        ensures items { result.items.now ≡ items.old }
        ensures lender { result.items.ghost_name ≡ items.entry.ghost_name }
    {
        Table { items, count }
    }

    pub fn count(&self) -> u16
        ensures counted { result ≡ self.now.count }
    {
        self.count
    }

    // Writes the item while there is room, and counts on; hands out its place.
    pub fn push(&mut self, item: T) -> u16
        requires { self.old.count < 2 ^ 16 - 1 }
        ensures place { result ≡ self.old.count }
        ensures count { self.new.count ≡ self.old.count + 1 }
        ensures items { self.new.items.now ≡ slice_set self.old.items.now self.old.count item }
        ensures lender { self.new.items.ghost_name ≡ self.old.items.ghost_name }
    {
        let place = self.count;
        let at = usize::from(place);
        if at < self.items.len() {
            self.items[at] = item;
        }
        self.count += 1;
        place
    }
}

// Puts the node of an expression that ends at `to`.
pub fn put(nodes: &mut Table<'_, Node>, node: Node, to: u16, size: Size) -> Got
    requires { nodes.old.count < to }
    ensures put { Put nodes.old nodes.new node to size result }
{
    Got {
        to,
        root: nodes.push(node),
        place: node.place,
        size,
    }
}

// An expression of one token that no limit is about.
pub(crate) fn leaf(nodes: &mut Table<'_, Node>, sight: Sight, form: Form) -> Got
    requires { nodes.old.count < sight.to }
    ensures put { Put nodes.old nodes.new (record { place = sight.from; form = form }) sight.to (record { depth = 1; small = true }) result }
{
    let node = Node {
        place: sight.from,
        form,
    };
    put(nodes, node, sight.to, Size::leaf(true))
}
