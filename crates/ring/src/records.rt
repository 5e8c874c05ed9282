//! What a ring does: take a record, forget all, say how many it holds, give one by its age.
ghost use Rattle.std.specs.Prelude.{◌≡◌, ◌≤◌, length};
ghost use Rattle.std.specs.List.{slice_get};
ghost use Rattle.ring.specs.Rolls.{empty_roll, added, emptied};

use super::Ring;

impl<'a, T: Copy> Ring<'a, T> {
    /// An empty ring over the slots.
    pub fn new(slots: &'a mut [T]) -> Self
        ensures { result ≡ empty_roll (length slots.old) }
    {
        Ring {
            slots,
            next: 0,
            count: 0,
        }
    }

    /// Forgets every record.
    pub fn clear(&mut self)
        ensures { self.new ≡ emptied self.old }
    {
        self.count = 0;
    }

    /// How many records it holds.
    pub fn len(&self) -> usize
        ensures count { result ≡ length self.now.items }
        ensures few { result ≤ self.now.room }
    {
        self.count
    }

    /// The record of an age, 0 being the newest, or none where fewer are held.
    pub fn get(&self, age: usize) -> Option<T>
        ensures found { result ≡ slice_get self.now.items age }
        ensures few { length self.now.items ≤ self.now.room }
    {
        if age >= self.count {
            return None;
        }
        let slots: &[T] = self.slots;
        let at = if age < self.next {
            self.next - 1 - age
        } else {
            slots.len() - 1 - (age - self.next)
        };
        Some(slots[at])
    }

    /// Takes one record more; where every slot is used, the oldest gives way.
    pub fn push(&mut self, newest: T)
        ensures { self.new ≡ added newest self.old }
    {
        let size = self.slots.len();
        if size == 0 {
            return;
        }
        let at = self.next;
        let next = if at + 1 < size { at + 1 } else { 0 };
        let count = if self.count < size {
            self.count + 1
        } else {
            size
        };
        self.slots[at] = newest;
        self.next = next;
        self.count = count;
    }
}
