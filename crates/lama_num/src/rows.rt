// Lists in one vector, for loops that go over many of them.
ghost use Rattle.std.specs.Prelude.{◌≡◌, ◌<◌, ◌^◌, [], ◌∷◌, ◌++◌, length, IfOk, OnOk, OnErr};
ghost use Rattle.lama_num.specs.Rows.{row_at};

use crate::list::Seq;
use crate::memory::NoMemory;
use std::alloc::Global;
use std::marker::Model;

/// Where a row begins in the vector, and where it ends.
#[derive(Clone, Copy)]
pub struct Span {
    pub start: u32,
    pub end: u32,
}

/// Lists, one after the other in one vector. Contracts see the list of them.
///
/// It holds fewer than 2^32 items: a push of more answers that memory is wanting.
#[derive(Drop)]
pub struct Rows<T> {
    items: Vec<T>,
    spans: Vec<Span>,
}

impl<T> Model for Rows<T> {
    ghost use Rattle.std.specs.Prelude.{List, IsTrue, length};
    ghost use Rattle.std.specs.List.{list_all};
    ghost use Rattle.std.specs.Coded.{coded_list};
    ghost use Rattle.lama_num.specs.Rows.{rows_of, is_span};

    ghost Value = { List (List T) };

    ghost coded = { coded_list (coded_list T.code) };

    ghost view = { λ r. rows_of r.items.items r.spans.items };

    ghost invariant = { λ r. IsTrue (list_all (is_span (length r.items.items)) r.spans.items) };
}

/// A place in the vector, if it has 32 bits.
fn place_of(place: usize) -> Result<u32, NoMemory>
    ensures { IfOk result (λ short. short ≡ place) }
{
    if place >= 4_294_967_296 {
        return Err(NoMemory);
    }
    Ok(place as u32)
}

impl<T> Rows<T> {
    /// No rows, which take no memory.
    pub fn new(alloc: Global) -> Rows<T>
        ensures { result ≡ [] }
    {
        Rows {
            items: Vec::new(alloc),
            spans: Vec::new(alloc),
        }
    }

    /// How many rows there are.
    pub fn len(&self) -> usize
        ensures { result ≡ length self.now }
    {
        self.spans.len()
    }

    /// A row by its number.
    pub fn row(&self, number: usize) -> &[T]
        requires { number < length self.now }
        ensures { result.now ≡ row_at self.now number }
    {
        let span = self.spans[number];
        &self.items[span.start as usize..span.end as usize]
    }
}

impl<T: Copy> Rows<T> {
    /// The rows of a list of lists.
    pub fn from_lists(alloc: Global, lists: &[Seq<T>]) -> Result<Rows<T>, NoMemory>
        ensures { IfOk result (λ rows. rows ≡ lists.now) }
    {
        let mut rows = Rows::new(alloc);
        for list in lists {
            match rows.push(list) {
                Ok(()) => {}
                Err(e) => return Err(e),
            }
        }
        Ok(rows)
    }

    /// Adds a row at the end. Where memory is wanting, the rows stay as they were.
    pub fn push(&mut self, row: &[T]) -> Result<(), NoMemory>
        ensures ok { OnOk result (self.new ≡ self.old ++ row.now ∷ []) }
        ensures err { OnErr result (self.new ≡ self.old) }
    {
        let start = place_of(self.items.len())?;
        self.items.extend_from_slice(row)?;
        let Ok(end) = place_of(self.items.len()) else {
            return Err(NoMemory);
        };
        let Ok(()) = self.spans.push(Span { start, end }) else {
            return Err(NoMemory);
        };
        Ok(())
    }
}
