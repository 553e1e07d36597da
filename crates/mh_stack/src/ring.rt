//! `Ring`: numbers in an order in which each is taken out, and put in beside another one, in constant time.
ghost use Rattle.std.specs.Prelude.{◌≡◌, ◌≢◌, ◌<◌, ◌≤◌, ◌+◌, ◌∷◌, ◌++◌, [], true, false, max, nat_eq, not, length, reverse, slice_set, vec_len, OnOk};
ghost use Rattle.std.specs.List.{list_any};
ghost use Rattle.std.specs.Vec.{vec_capacity};
ghost use Rattle.mh_stack.specs.Rings.{AreIn, next, order, put_above, put_below, walk, without_number};

use std::alloc::{AllocError, Global};
use std::marker::Model;

/// Numbers from 1 in an order, each at most once. Each has a link to the number above it and to the one below it;
/// number 0 stands below the lowest and above the highest, and a number that is not in the order leads to itself.
#[derive(Drop)]
pub struct Ring {
    above: Vec<usize>,
    below: Vec<usize>,
    count: usize,
}

impl Model for Ring {
    ghost use Rattle.std.specs.Prelude.{◌≡◌, ◌-◌, length, min, vec_len};
    ghost use Rattle.std.specs.Vec.{vec_capacity};
    ghost use Rattle.mh_stack.specs.Rings.{IsRing, Round, next};

    ghost Value = { Round };

    ghost view = { λ r. record {
      above = r.above.items;
      below = r.below.items;
      count = r.count;
      room = min (vec_capacity r.above - vec_len r.above) (vec_capacity r.below - vec_len r.below);
    } };

    ghost invariant = { λ r. (length r.below.items ≡ length r.above.items) × IsRing (next r.above.items) (next r.below.items) r.count };
}

impl Ring {
    /// Without numbers. It takes no memory.
    pub fn new(alloc: Global) -> Ring
        ensures { result ≡ record { above = []; below = []; count = 0; room = 0 } }
    {
        Ring {
            above: Vec::new(alloc),
            below: Vec::new(alloc),
            count: 0,
        }
    }

    /// How many numbers are in the order.
    pub fn count(&self) -> usize
        ensures count { result ≡ self.now.count }
        ensures few { self.now.count ≤ length self.now.above }
    {
        self.count
    }

    /// How many links there are.
    pub fn len(&self) -> usize
        ensures len { result ≡ length self.now.above }
        ensures within { AreIn (length self.now.above) (order self.now) }
    {
        self.above.len()
    }

    /// The number above this one.
    pub fn over(&self, number: usize) -> usize
        ensures { result ≡ next self.now.above number }
    {
        next(self.above.as_slice(), number)
    }

    /// The number below this one.
    pub fn under(&self, number: usize) -> usize
        ensures { result ≡ next self.now.below number }
    {
        next(self.below.as_slice(), number)
    }

    /// The links up.
    pub fn links_up(&self) -> &[usize]
        ensures { result.now ≡ self.now.above }
    {
        self.above.as_slice()
    }

    /// The links down, which lead through the order from its end.
    pub fn links_down(&self) -> &[usize]
        ensures links { result.now ≡ self.now.below }
        ensures reverse { walk (next self.now.below) self.now.count 0 ≡ reverse (order self.now) }
    {
        self.below.as_slice()
    }

    /// Whether the number is in the order.
    pub fn has(&self, number: usize) -> bool
        ensures { result ≡ list_any (nat_eq number) (order self.now) }
    {
        let _ = &self.above;
        number != 0 && self.over(number) != number
    }

    /// Makes room for the links of one more number.
    pub fn reserve(&mut self) -> Result<(), AllocError>
        ensures above { self.new.above ≡ self.old.above }
        ensures below { self.new.below ≡ self.old.below }
        ensures count { self.new.count ≡ self.old.count }
        ensures room { OnOk result (2 ≤ self.new.room) }
    {
        self.above.reserve(2)?;
        self.below.reserve(2)
    }

    /// One more number, which is not in the order.
    pub fn grow(&mut self)
        requires { 2 ≤ self.old.room }
        ensures order { order self.new ≡ order self.old }
        ensures long { length self.new.above ≡ max 1 (length self.old.above) + 1 }
    {
        if self.above.is_empty() {
            self.push();
        }
        self.push();
    }

    /// One more link, which leads to itself.
    fn push(&mut self)
        requires { 1 ≤ self.old.room }
        ensures order { order self.new ≡ order self.old }
        ensures long { length self.new.above ≡ length self.old.above + 1 }
        ensures room { self.old.room ≤ self.new.room + 1 }
    {
        let number = self.above.len();
        self.above.push_reserved(number);
        self.below.push_reserved(number);
    }

    /// Takes a number out.
    pub fn take_out(&mut self, number: usize)
        ensures order { order self.new ≡ without_number number (order self.old) }
        ensures long { length self.new.above ≡ length self.old.above }
        ensures room { self.new.room ≡ self.old.room }
    {
        let _ = &self.above;
        if self.has(number) {
            self.unlink(number);
        }
    }

    fn unlink(&mut self, number: usize)
        requires some { number ≢ 0 }
        requires linked { next self.old.above number ≢ number }
        ensures order { order self.new ≡ without_number number (order self.old) }
        ensures long { length self.new.above ≡ length self.old.above }
        ensures room { self.new.room ≡ self.old.room }
    {
        let over = self.over(number);
        let under = self.under(number);
        put(&mut self.above, under, over);
        put(&mut self.above, number, number);
        put(&mut self.below, over, under);
        put(&mut self.below, number, number);
        self.count -= 1;
    }

    /// Puts a number on top.
    pub fn put_top(&mut self, number: usize)
        requires some { number ≢ 0 }
        requires known { number < length self.old.above }
        requires new { list_any (nat_eq number) (order self.old) ≡ false }
        ensures order { order self.new ≡ order self.old ++ number ∷ [] }
        ensures long { length self.new.above ≡ length self.old.above }
    {
        let _ = &self.above;
        self.link(number, 0);
    }

    /// Puts a number at the bottom.
    pub fn put_bottom(&mut self, number: usize)
        requires some { number ≢ 0 }
        requires known { number < length self.old.above }
        requires new { list_any (nat_eq number) (order self.old) ≡ false }
        ensures order { order self.new ≡ number ∷ order self.old }
        ensures long { length self.new.above ≡ length self.old.above }
    {
        self.put_below(number, self.over(0));
    }

    /// Puts a number just below another one, or on top where that one is not in the order.
    pub fn put_below(&mut self, number: usize, other: usize)
        requires some { number ≢ 0 }
        requires known { number < length self.old.above }
        requires new { list_any (nat_eq number) (order self.old) ≡ false }
        ensures order { order self.new ≡ put_below number other (order self.old) }
        ensures long { length self.new.above ≡ length self.old.above }
    {
        let _ = &self.above;
        if self.has(other) {
            self.link(number, other);
        } else {
            self.link(number, 0);
        }
    }

    /// Puts a number just above another one, or on top where that one is not in the order.
    pub fn put_above(&mut self, number: usize, other: usize)
        requires some { number ≢ 0 }
        requires known { number < length self.old.above }
        requires new { list_any (nat_eq number) (order self.old) ≡ false }
        ensures order { order self.new ≡ put_above number other (order self.old) }
        ensures long { length self.new.above ≡ length self.old.above }
    {
        let _ = &self.above;
        if self.has(other) {
            self.put_below(number, self.over(other));
        } else {
            self.link(number, 0);
        }
    }

    /// Links a number in just below another one, or on top, below 0.
    fn link(&mut self, number: usize, over: usize)
        requires some { number ≢ 0 }
        requires known { number < length self.old.above }
        requires new { list_any (nat_eq number) (order self.old) ≡ false }
        requires there { list_any (nat_eq over) (order self.old) ≡ false → over ≡ 0 }
        ensures order { order self.new ≡ put_below number over (order self.old) }
        ensures long { length self.new.above ≡ length self.old.above }
    {
        let _ = self.len();
        let under = self.under(over);
        put(&mut self.above, under, number);
        put(&mut self.above, number, over);
        put(&mut self.below, number, under);
        put(&mut self.below, over, number);
        self.count += 1;
    }
}

/// The number to which a number leads.
pub(crate) fn next(links: &[usize], number: usize) -> usize
    ensures { result ≡ next links.now number }
{
    if number < links.len() {
        links[number]
    } else {
        number
    }
}

fn put(links: &mut Vec<usize>, number: usize, to: usize)
    requires { number < vec_len links.old }
    ensures items { links.new.items ≡ slice_set links.old.items number to }
    ensures room { vec_capacity links.new ≡ vec_capacity links.old }
{
    links[number] = to;
}
