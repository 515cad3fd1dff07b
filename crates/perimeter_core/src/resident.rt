//! What a perimeter serves: the blocks of the connections that are here.
ghost use Rattle.std.specs.Prelude.{◌≡◌, ℕ, ◌<◌, List, [], ◌∷◌, Some, Contains, is_some, slice_index};
ghost use Rattle.perimeter_core.specs.declared.entries.Act.{Act};
ghost use Rattle.perimeter_core.specs.declared.entries.Entry.TheVariants as Entry';
ghost use Rattle.perimeter_core.specs.declared.marks.SynchAct.TheVariants as Done;
ghost use Rattle.perimeter_core.specs.History.{Limits};
ghost use Rattle.perimeter_core.specs.Deeds.{feed_numbers};
ghost use Rattle.perimeter_core.specs.Blocks.{Blocks, with_feeds, with_act};
ghost use Rattle.perimeter_core.specs.Residing.{HadFeeds, Here, NotHere, IsWithin, feeds_had};

use std::alloc::Global;

/// A resident stands for maps from the connections that are here to lists of acts, and a part for lists of acts. It need not
/// store its acts, so this is a relation, and each clause holds for every map for which the resident stood before the call.
/// `take_out`, `put_in`, `is_here` and `conns` take no memory; want of it inside `feed` or `call` is the resident's to record.
pub trait Resident {
    /// The block of one connection, on its way from one perimeter to another.
    type Part;
    /// What the residents of one run have in common, for contracts alone.
    type Origin;

    /// The maps from connections to lists of acts for which it stands.
    ghost stands: { Self → Blocks → Type 0 };

    /// The lists of acts for which a part stands.
    ghost part_stands: { Self.Part → List Act → Type 0 };

    /// How many feeds each connection may have, how often it may leave, and which calls there are.
    ghost limits: { Self → Limits };

    /// How many connections there are, here or elsewhere.
    ghost size: { Self → ℕ };

    /// What it has in common with the other residents of its run.
    ghost origin: { Self → Self.Origin };

    /// Which parts of a connection, by its number, the residents with this origin take in and give out.
    ghost is_part_of: { Self.Origin → ℕ → Self.Part → Type 0 };

    /// How many connections there are, here or elsewhere. No call changes it.
    fn conns(&self) -> u32
        ensures { result ≡ size self.now };

    /// Whether the connection's block is here.
    fn is_here(&self, c: u32) -> bool
        requires { c < size self.now }
        ensures { (blocks : Blocks) → stands self.now blocks → result ≡ is_some (blocks c) };

    /// Does the feed, which is the next one of the connection.
    fn feed(&mut self, alloc: Global, c: u32, n: u32)
        requires range { c < size self.old }
        requires next { HadFeeds (stands self.old) c n }
        requires limit { n < slice_index (limits self.old).feeds c }
        ensures stands { (blocks : Blocks) → stands self.old blocks → stands self.new (with_feeds (Entry'.Feed c n ∷ []) blocks) }
        ensures limits { limits self.new ≡ limits self.old }
        ensures size { size self.new ≡ size self.old }
        ensures origin { origin self.new ≡ origin self.old };

    /// Makes call `k` of thread `j`. A call that the block has had already is allowed.
    fn call(&mut self, alloc: Global, c: u32, j: u32, k: u32)
        requires range { c < size self.old }
        requires here { Here (stands self.old) c }
        requires exists { Contains (limits self.old).calls (c, j, k) }
        ensures stands { (blocks : Blocks) → stands self.old blocks → stands self.new (with_act (Done.Call c j k) [] blocks) }
        ensures limits { limits self.new ≡ limits self.old }
        ensures size { size self.new ≡ size self.old }
        ensures origin { origin self.new ≡ origin self.old };

    /// Takes the connection's block out.
    fn take_out(&mut self, c: u32) -> Self::Part
        requires range { c < size self.old }
        requires here { Here (stands self.old) c }
        ensures stands { (blocks : Blocks) → stands self.old blocks → stands self.new (with_act (Done.Out c) [] blocks) }
        ensures part { (blocks : Blocks) (had : List Act) → stands self.old blocks → blocks c ≡ Some had → part_stands result had }
        ensures owner { is_part_of (origin self.old) c result }
        ensures limits { limits self.new ≡ limits self.old }
        ensures size { size self.new ≡ size self.old }
        ensures origin { origin self.new ≡ origin self.old };

    /// Puts the connection's block in.
    fn put_in(&mut self, c: u32, part: Self::Part)
        requires range { c < size self.old }
        requires away { NotHere (stands self.old) c }
        requires owner { is_part_of (origin self.old) c part }
        ensures stands { (blocks : Blocks) (note : List Act) → stands self.old blocks → part_stands part note
            → stands self.new (with_act (Done.In c) note blocks) }
        ensures limits { limits self.new ≡ limits self.old }
        ensures size { size self.new ≡ size self.old }
        ensures origin { origin self.new ≡ origin self.old };

    // Each connection that is here is one of the connections.
    ghost in_range: { (r : Self) (blocks : Blocks) (c : ℕ) (had : List Act) → stands r blocks → blocks c ≡ Some had → c < size r };

    // So is each that the limits name.
    ghost limits_in_range: { (r : Self) → IsWithin (size r) (limits r) };

    // Whatever a part stands for, the feeds are the same.
    ghost same_part_feeds: { (p : Self.Part) (a b : List Act) → part_stands p a → part_stands p b → feed_numbers a ≡ feed_numbers b };

    // Whatever a resident stands for, the feeds are the same.
    ghost same_feeds: { (r : Self) (a b : Blocks) (c : ℕ) → stands r a → stands r b → feeds_had a c ≡ feeds_had b c };
}
