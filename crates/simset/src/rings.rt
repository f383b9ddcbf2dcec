//! The rings: one vector of nodes, each with the numbers of its two neighbours.
ghost use Rattle.std.specs.Prelude.{◌≡◌, ◌≢◌, ◌+◌, ◌<◌, ◌≤◌, ◌^◌, ◌↔◌, [], ◌∷◌, ◌++◌, length, IsTrue, IsOk, OnOk};
ghost use Rattle.std.specs.Bool.{OnTrue, OnFalse};
ghost use Rattle.std.specs.Option.{ForSome};
ghost use Rattle.simset.specs.Sets.{Link, Head, fresh, IsLinkAt, IsHeadAt, IsProper, is_link_at, is_head_at, times_in, places_from, each_from, put_after, put_before, suc_of, pred_of, prev_of, cardinal_of, out, follow, precede, into, clear};
ghost use Rattle.simset.specs.Instances.{number_of};
ghost use Rattle.simset.specs.Nodes.{IsTied, IsJoined, IsNext, IsTakenOut, IsPutBehind, link_beside, linkage_beside, is_in_ring};

use sim_base::Memory;
use std::alloc::Global;
use std::marker::Model;

/// The number of a link or a head: they are numbered together from 0, in the order in which they are made.
#[derive(Clone, Copy, Debug, PartialEq, Eq)]
pub struct LinkageNo(pub u32);

/// A link or a head. A link that is in no set, and the head of an empty set, is its own neighbour.
#[derive(Clone, Copy)]
struct Node {
    head: bool,
    next: u32,
    previous: u32,
}

/// The sets of a program: its links and heads.
///
/// Each head keeps its links in a ring, from the head to the first link, from each link to the next one, and
/// from the last link to the head, and the other way round. No call but `reserve` takes memory, and none lowers
/// the room. Only `cardinal` and `clear` walk along a set.
#[derive(Drop)]
pub struct Rings {
    nodes: Vec<Node>,
}

impl Model for Rings {
    ghost use Rattle.simset.specs.Sets.{Simset};

    ghost Value = { Simset };

    ghost use Rattle.std.specs.Prelude.{min};
    ghost use Rattle.std.specs.Vec.{vec_capacity};
    ghost use Rattle.simset.specs.Instances.{number_of};
    ghost use Rattle.simset.specs.Nodes.{sets_of, KeepsSets};

    ghost view = { λ rings. record { sets = sets_of rings.nodes.items; room = min (vec_capacity rings.nodes) 4294967295 } };

    ghost invariant = { λ rings. KeepsSets rings.nodes.items (sets_of rings.nodes.items) };
}

impl Rings {
    /// No links and no heads. It takes no memory.
    pub fn new(alloc: Global) -> Self
        ensures sets { result.sets ≡ [] }
    {
        Rings {
            nodes: Vec::new(alloc),
        }
    }

    /// Makes the room at least `count`, the number of links and heads that fit together. Since their numbers
    /// are of 32 bits, more than `u32::MAX` of them never fit.
    pub fn reserve(&mut self, count: usize) -> Result<(), Memory>
        ensures sets { self.new.sets ≡ self.old.sets }
        ensures kept { self.old.room ≤ self.new.room }
        ensures ok { OnOk result (count ≤ self.new.room) }
        ensures enough { count ≤ self.old.room → IsOk result }
    {
        let missing = count.saturating_sub(self.nodes.len());
        if count > u32::MAX as usize {
            return Err(Memory);
        }
        self.nodes.reserve(missing)?;
        Ok(())
    }

    /// What holds of every value: whatever stands in a set is a link, in that set alone and there once.
    pub fn members_stand_once(&self)
        ensures { IsProper self.now.sets }
    {
        prove!(self.nodes.len() <= u32::MAX as usize);
    }

    /// How many links and heads were made: their numbers are those below.
    pub fn len(&self) -> usize
        ensures { result ≡ length self.now.sets }
    {
        self.nodes.len()
    }

    /// Whether no link and no head was made.
    pub fn is_empty(&self) -> bool
        ensures { IsTrue result ↔ (self.now.sets ≡ []) }
    {
        self.nodes.is_empty()
    }

    /// Whether one more link or head fits.
    pub fn has_room(&self) -> bool
        ensures { IsTrue result ↔ (length self.now.sets < self.now.room) }
    {
        self.nodes.len() < self.nodes.capacity() && self.nodes.len() < u32::MAX as usize
    }

    /// Makes a link, which is in no set, and answers its number.
    pub fn add_link(&mut self) -> LinkageNo
        requires { length self.old.sets < self.old.room }
        ensures number { result.0 ≡ length self.old.sets }
        ensures sets { self.new.sets ≡ self.old.sets ++ Link ∷ [] }
        ensures room { self.new.room ≡ self.old.room }
    {
        LinkageNo(self.add(false))
    }

    /// Makes a head, whose set is empty, and answers its number.
    pub fn add_head(&mut self) -> LinkageNo
        requires { length self.old.sets < self.old.room }
        ensures number { result.0 ≡ length self.old.sets }
        ensures sets { self.new.sets ≡ self.old.sets ++ Head [] ∷ [] }
        ensures room { self.new.room ≡ self.old.room }
    {
        LinkageNo(self.add(true))
    }

    /// Whether the number is that of a link.
    pub fn is_link(&self, x: LinkageNo) -> bool
        ensures { result ≡ is_link_at self.now.sets x.0 }
    {
        (x.0 as usize) < self.nodes.len() && !self.nodes[x.0 as usize].head
    }

    /// Whether the number is that of a head.
    pub fn is_head(&self, x: LinkageNo) -> bool
        ensures { result ≡ is_head_at self.now.sets x.0 }
    {
        (x.0 as usize) < self.nodes.len() && self.nodes[x.0 as usize].head
    }

    /// Takes the link out of its set. One that is in no set stays outside.
    pub fn out(&mut self, link: LinkageNo)
        requires { IsLinkAt self.old.sets link.0 }
        ensures sets { self.new.sets ≡ out self.old.sets link.0 }
        ensures room { self.new.room ≡ self.old.room }
    {
        self.leave(link.0);
    }

    /// Takes the link out, and then puts it directly after `x`: after a head, in the first place of its set.
    /// With none, and where `x` is then a link in no set, the link stays outside.
    pub fn follow(&mut self, link: LinkageNo, x: Option<LinkageNo>)
        requires link { IsLinkAt self.old.sets link.0 }
        requires made { ForSome x (λ p. p.0 < length self.old.sets) }
        ensures sets { self.new.sets ≡ follow self.old.sets link.0 (number_of x) }
        ensures room { self.new.room ≡ self.old.room }
    {
        self.leave(link.0);
        if let Some(place) = x {
            if self.is_placed(place.0) {
                self.insert_after(link.0, place.0);
            }
        }
    }

    /// Takes the link out, and then puts it directly before `x`: before a head, in the last place of its set.
    /// With none, and where `x` is then a link in no set, the link stays outside.
    pub fn precede(&mut self, link: LinkageNo, x: Option<LinkageNo>)
        requires link { IsLinkAt self.old.sets link.0 }
        requires made { ForSome x (λ p. p.0 < length self.old.sets) }
        ensures sets { self.new.sets ≡ precede self.old.sets link.0 (number_of x) }
        ensures room { self.new.room ≡ self.old.room }
    {
        self.leave(link.0);
        if let Some(place) = x {
            if self.is_placed(place.0) {
                self.insert_before(link.0, place.0);
            }
        }
    }

    /// Takes the link out, and then puts it in the last place of the head's set. With none it stays outside.
    pub fn into(&mut self, link: LinkageNo, head: Option<LinkageNo>)
        requires link { IsLinkAt self.old.sets link.0 }
        requires head { ForSome head (λ h. IsHeadAt self.old.sets h.0) }
        ensures sets { self.new.sets ≡ into self.old.sets link.0 (number_of head) }
        ensures room { self.new.room ≡ self.old.room }
    {
        // A head stands in no set.
        self.members_stand_once();
        self.leave(link.0);
        if let Some(place) = head {
            self.insert_before(link.0, place.0);
        }
    }

    /// Of a link the next link in its set, of a head its first link; `None` where there is none.
    pub fn suc(&self, x: LinkageNo) -> Option<LinkageNo>
        requires { x.0 < length self.now.sets }
        ensures { number_of result ≡ suc_of self.now.sets x.0 }
    {
        numbered(self.next_link(x.0))
    }

    /// Of a link the link before it in its set, of a head its last link; `None` where there is none.
    pub fn pred(&self, x: LinkageNo) -> Option<LinkageNo>
        requires { x.0 < length self.now.sets }
        ensures { number_of result ≡ pred_of self.now.sets x.0 }
    {
        numbered(link_of(&self.nodes, x.0, self.nodes[x.0 as usize].previous))
    }

    /// As `pred`, but the head of its set for a first link, and the head itself for one whose set is empty.
    pub fn prev(&self, x: LinkageNo) -> Option<LinkageNo>
        requires { x.0 < length self.now.sets }
        ensures { number_of result ≡ prev_of self.now.sets x.0 }
    {
        numbered(linkage_of(&self.nodes, x.0))
    }

    /// How many links the head's set has.
    pub fn cardinal(&self, head: LinkageNo) -> u32
        requires { IsHeadAt self.now.sets head.0 }
        ensures { result ≡ cardinal_of self.now.sets head.0 }
    {
        prove!(self.nodes.len() <= u32::MAX as usize);
        let mut count = 0;
        let mut next = self.next_link(head.0);
        while let Some(link) = next {
            count += 1;
            next = self.next_link(link);
        }
        count
    }

    /// Takes every link of the head's set out.
    pub fn clear(&mut self, head: LinkageNo)
        requires { IsHeadAt self.old.sets head.0 }
        ensures sets { self.new.sets ≡ clear self.old.sets head.0 }
        ensures room { self.new.room ≡ self.old.room }
    {
        // No link of the set stands in another one.
        self.members_stand_once();
        while let Some(link) = self.next_link(head.0) {
            self.leave(link);
        }
    }

    // Takes a link out of its set.
    fn leave(&mut self, link: u32)
        requires { IsLinkAt self.old.sets link }
        ensures sets { self.new.sets ≡ out self.old.sets link }
        ensures room { self.new.room ≡ self.old.room }
    {
        take_out(&mut self.nodes, link);
    }

    // Of a link the next link in its set, of a head its first link.
    fn next_link(&self, x: u32) -> Option<u32>
        requires { x < length self.now.sets }
        ensures { result ≡ suc_of self.now.sets x }
    {
        link_of(&self.nodes, x, self.nodes[x as usize].next)
    }

    // Makes a node of one kind, and answers its number.
    fn add(&mut self, head: bool) -> u32
        requires { length self.old.sets < self.old.room }
        ensures number { result ≡ length self.old.sets }
        ensures sets { self.new.sets ≡ self.old.sets ++ fresh head ∷ [] }
        ensures room { self.new.room ≡ self.old.room }
    {
        let number = self.nodes.len() as u32;
        self.nodes.push_reserved(Node {
            head,
            next: number,
            previous: number,
        });
        number
    }

    // Whether the linkage is a head or a link in a set.
    fn is_placed(&self, x: u32) -> bool
        requires { x < length self.now.sets }
        ensures yes { OnTrue result (0 < places_from x 0 self.now.sets) }
        ensures no { OnFalse result (places_from x 0 self.now.sets ≡ 0) }
    {
        has_place(&self.nodes, x)
    }

    // Puts a link that is in no set directly after a place.
    fn insert_after(&mut self, link: u32, place: u32)
        requires link { IsLinkAt self.old.sets link }
        requires outside { times_in link self.old.sets ≡ 0 }
        requires made { place < length self.old.sets }
        requires placed { 0 < places_from place 0 self.old.sets }
        ensures sets { self.new.sets ≡ each_from (put_after link place) 0 self.old.sets }
        ensures room { self.new.room ≡ self.old.room }
    {
        put_behind(&mut self.nodes, place, link);
    }

    // Puts a link that is in no set directly before a place.
    fn insert_before(&mut self, link: u32, place: u32)
        requires link { IsLinkAt self.old.sets link }
        requires outside { times_in link self.old.sets ≡ 0 }
        requires made { place < length self.old.sets }
        requires placed { 0 < places_from place 0 self.old.sets }
        ensures sets { self.new.sets ≡ each_from (put_before link place) 0 self.old.sets }
        ensures room { self.new.room ≡ self.old.room }
    {
        let before = self.nodes[place as usize].previous;
        put_behind(&mut self.nodes, before, link);
    }
}

/// The linkage of a number, if there is one.
fn numbered(number: Option<u32>) -> Option<LinkageNo>
    ensures { number_of result ≡ number }
{
    match number {
        None => None,
        Some(number) => Some(LinkageNo(number)),
    }
}

/// The number of a link beside `x`: none where that is `x` itself or a head.
fn link_of(nodes: &[Node], x: u32, beside: u32) -> Option<u32>
    requires { beside < length nodes.now }
    ensures { result ≡ link_beside nodes.now x beside }
{
    if beside == x || nodes[beside as usize].head {
        return None;
    }
    Some(beside)
}

/// The number of the node in front of `x`: none for a link that is by itself.
fn linkage_of(nodes: &[Node], x: u32) -> Option<u32>
    requires { x < length nodes.now }
    ensures { result ≡ linkage_beside nodes.now x }
{
    let node = nodes[x as usize];
    if node.previous == x && !node.head {
        return None;
    }
    Some(node.previous)
}

/// Whether the node is a head or has another node beside it.
fn has_place(nodes: &[Node], x: u32) -> bool
    requires { x < length nodes.now }
    ensures { result ≡ is_in_ring nodes.now x }
{
    let node = nodes[x as usize];
    node.head || node.next != x
}

/// Makes `after` the node that follows `before`.
fn tie(nodes: &mut [Node], before: u32, after: u32)
    requires before_made { before < length nodes.old }
    requires after_made { after < length nodes.old }
    ensures { IsTied nodes.old nodes.new before after }
{
    nodes[before as usize].next = after;
    nodes[after as usize].previous = before;
}

/// Ties the neighbours of a node to each other, and the node to itself.
fn take_out(nodes: &mut [Node], x: u32)
    requires made { x < length nodes.old }
    requires joined { IsJoined nodes.old x }
    ensures { IsTakenOut nodes.old nodes.new x }
{
    let node = nodes[x as usize];
    tie(nodes, node.previous, node.next);
    tie(nodes, x, x);
}

/// Ties a node that is its own neighbour behind another one.
fn put_behind(nodes: &mut [Node], before: u32, x: u32)
    requires before_made { before < length nodes.old }
    requires made { x < length nodes.old }
    requires joined { IsJoined nodes.old before }
    requires alone { IsNext nodes.old x x }
    requires apart { before ≢ x }
    ensures { IsPutBehind nodes.old nodes.new before x }
{
    let next = nodes[before as usize].next;
    tie(nodes, before, x);
    tie(nodes, x, next);
}
