ghost use Rattle.std.specs.Prelude.{◌≡◌, ◌≤◌, [], map, length, drop, slice_set};
ghost use Rattle.std.specs.List.{remove};
ghost use Rattle.waiting_line.specs.Lines.{memory, items, capacity, Holds, full, put_answer, put_left, put_all_answer, put_all_left, place_answer, read_answer};

use crate::gap::close_gap;
use crate::line::WaitingLine;
use crate::timed::{Timed, tick_all};
use answers::Denial;

impl<'m, T: Copy> WaitingLine<'m, T> {
    /// A line with nothing in it, over given memory.
    pub fn new(places: &'m mut [T]) -> WaitingLine<'m, T>
        ensures items { items result ≡ [] }
        ensures memory { memory result ≡ places.old }
    {
        WaitingLine { places, used: 0 }
    }

    /// How many elements it holds.
    pub fn len(&self) -> usize
        ensures length { result ≡ length (items self.now) }
        ensures within { result ≤ capacity self.now }
    {
        self.all().len()
    }

    /// How many places it has.
    pub fn places(&self) -> usize
        ensures { result ≡ capacity self.now }
    {
        self.places.len()
    }

    /// Whether every place is held.
    pub fn is_full(&self) -> bool
        ensures { result ≡ full (capacity self.now) (items self.now) }
    {
        self.used == self.places.len()
    }

    /// The elements, in order.
    pub fn all(&self) -> &[T]
        ensures { result.now ≡ items self.now }
    {
        &self.places[..self.used]
    }

    /// The element at place `i`; denied with 10.
    pub fn read(&self, i: usize) -> Result<T, Denial>
        ensures { result ≡ read_answer (items self.now) i }
    {
        self.all().get(i).copied().ok_or(Denial::NoneThere)
    }

    /// Puts `x` at the end; denied with 13.
    pub fn put(&mut self, x: T) -> Result<(), Denial>
        ensures answer { result ≡ put_answer (capacity self.old) (items self.old) }
        ensures holds { Holds self.old (put_left (capacity self.old) (items self.old) x) self.new }
    {
        if self.is_full() {
            return Err(Denial::NoFreePlace);
        }
        self.places[self.used] = x;
        self.used += 1;
        Ok(())
    }

    /// Puts all of `xs` at the end, in order; denied with 13 if they do not all fit.
    pub fn put_all(&mut self, xs: &[T]) -> Result<(), Denial>
        ensures answer { result ≡ put_all_answer (capacity self.old) (items self.old) xs.now }
        ensures holds { Holds self.old (put_all_left (capacity self.old) (items self.old) xs.now) self.new }
    {
        if xs.len() > self.places.len() - self.used {
            return Err(Denial::NoFreePlace);
        }
        let end = self.used + xs.len();
        self.places[self.used..end].copy_from_slice(xs);
        self.used = end;
        Ok(())
    }

    /// Puts `x` in the place of the element at `i`; denied with 10.
    pub fn replace(&mut self, i: usize, x: T) -> Result<(), Denial>
        ensures answer { result ≡ place_answer (items self.old) i }
        ensures holds { Holds self.old (slice_set (items self.old) i x) self.new }
    {
        if i >= self.used {
            return Err(Denial::NoneThere);
        }
        self.places[i] = x;
        Ok(())
    }

    /// Removes the element at `i`, and keeps the order of the rest; denied with 10.
    pub fn remove(&mut self, i: usize) -> Result<(), Denial>
        ensures answer { result ≡ place_answer (items self.old) i }
        ensures holds { Holds self.old (remove (items self.old) i) self.new }
    {
        if i >= self.used {
            return Err(Denial::NoneThere);
        }
        close_gap(self.places, i, 1, self.used);
        self.used -= 1;
        Ok(())
    }

    /// Removes the first `n` elements, all if there are fewer, and keeps the order of the rest.
    pub fn remove_first(&mut self, n: usize)
        ensures { Holds self.old (drop n (items self.old)) self.new }
    {
        close_gap(self.places, 0, n, self.used);
        self.used = self.used.saturating_sub(n);
    }

    /// One tick for each element.
    pub fn tick(&mut self)
    where
        T: Timed,
        ensures { Holds self.old (map T.Timed.ticked (items self.old)) self.new }
    {
        tick_all(&mut self.places[..self.used]);
    }
}
