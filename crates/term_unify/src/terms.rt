//! The terms of an arena and their kept solution.
ghost use Rattle.std.specs.Prelude.{◌≡◌, ◌≢◌, ◌<◌, ◌≤◌, ◌↔◌, ◌||◌, ◌^◌, ◌+◌, ◌++◌, ◌∷◌, [], ℕ, List, true, false, nat_eq, Ok, ◌⊎◌, IsTrue, IfSome, IfNone, IfOk, OnOk, OnErr, length};
ghost use Rattle.std.specs.List.{list_any};
ghost use Rattle.unifiers.specs.Reading.{places};
ghost use Rattle.unifiers.specs.Term.{Term, Occurs, size, apply};
ghost use Rattle.unifiers.specs.Term.Term.{var, con, app};
ghost use Rattle.unifiers.specs.Unifier.{Solves, MostGeneral};
ghost use Rattle.term_classes.specs.Slots.{root, rank_of};
ghost use Rattle.term_classes.specs.Fits.{Fits, Sound, HasParts, PartsBelow, node_at};
ghost use Rattle.term_classes.specs.Ceilings.{AreCapped, PartsCapped, Lowered};
ghost use Rattle.term_classes.specs.Settle.{AreOrdered, mark_of};
ghost use Rattle.term_unify.specs.Arena.{made, solved, solved_at, AreNatural, AreNumbered, solution, is_rigid, is_rigid_number, size_of, count_of, count_with, layer, listed_with, new_slot, IsNext};
ghost use Rattle.term_unify.specs.Added.{Added, SameTerms, Relaxed, Grown};
ghost use Rattle.term_unify.specs.Read.{term_of, depth};

use crate::read::read;
use crate::walk::variables_of;
use mk_base::list::List;
use mk_base::memory::NoMemory;
use mk_base::name::Name;
use mk_base::ty::Ty;
use std::alloc::Global;
use std::marker::Model;
use term_classes::ceiling::cap_parts;
use term_classes::find::find;
use term_classes::node::{Node, Slot};
use term_classes::unify::unify;

/// The place of a term among all terms, from 0.
#[derive(Clone, Copy, Debug)]
pub struct TermId(pub u64);

/// Terms over variables, constructors and applications, and a most general solution of the pairs that were made equal.
/// Variables have numbers of their own, from 0 in the order in which they are made, rigid ones among them.
#[derive(Debug, Drop)]
pub struct Terms {
    alloc: Global,
    nodes: Vec<Node>,
    slots: Vec<Slot>,
    variables: Vec<usize>,
    ceilings: Vec<u64>,
    marks: Vec<u64>,
    clock: u64,
}

impl Model for Terms {
    ghost use Rattle.term_unify.specs.Arena.{Arena, Holds};

    ghost Value = { Arena };

    ghost view = { λ t. record { nodes = t.nodes.items; slots = t.slots.items; variables = t.variables.items } };

    ghost invariant = { λ t. Holds t.nodes.items t.slots.items t.variables.items t.ceilings.items t.marks.items t.clock };
}

/// Puts a place behind those of the variables, if the node is one.
fn list_variable(variables: &mut Vec<usize>, node: &Node, place: usize) -> Result<(), NoMemory>
    ensures listed { OnOk result (variables.new.items ≡ listed_with node.now variables.old.items place) }
    ensures same { OnErr result (variables.new.items ≡ variables.old.items) }
{
    match node {
        Node::Free(_) => variables.push(place)?,
        Node::Rigid(_) => variables.push(place)?,
        _ => {}
    }
    Ok(())
}

/// Puts one more slot, ceiling and mark behind the others, or nothing.
fn grow_slots(
    slots: &mut Vec<Slot>,
    ceilings: &mut Vec<u64>,
    marks: &mut Vec<u64>,
    rank: u64,
) -> Result<(), NoMemory>
    requires ceilings { length ceilings.old.items ≡ length slots.old.items }
    requires marks { length marks.old.items ≡ length slots.old.items }
    ensures slots { OnOk result (slots.new.items ≡ slots.old.items ++ new_slot (length slots.old.items) rank ∷ []) }
    ensures ceilings { OnOk result (ceilings.new.items ≡ ceilings.old.items ++ 18446744073709551615 ∷ []) }
    ensures marks { OnOk result (marks.new.items ≡ marks.old.items ++ 0 ∷ []) }
    ensures same { OnErr result ((slots.new.items ≡ slots.old.items) × (ceilings.new.items ≡ ceilings.old.items) × (marks.new.items ≡ marks.old.items)) }
{
    let id = slots.len();
    let slot = Slot {
        link: id,
        shape: id,
        rank,
        height: 0,
    };
    slots.push(slot)?;
    if ceilings.push(18446744073709551615).is_err() {
        slots.truncate(id);
        return Err(NoMemory);
    }
    if marks.push(0).is_err() {
        slots.truncate(id);
        ceilings.truncate(id);
        return Err(NoMemory);
    }
    Ok(())
}

/// Puts one more node and, if it is a variable, its place behind the others, or nothing.
fn grow_nodes(nodes: &mut Vec<Node>, variables: &mut Vec<usize>, node: Node) -> Result<(), NoMemory>
    ensures nodes { OnOk result (nodes.new.items ≡ nodes.old.items ++ node ∷ []) }
    ensures variables { OnOk result (variables.new.items ≡ listed_with node variables.old.items (length nodes.old.items)) }
    ensures same { OnErr result ((nodes.new.items ≡ nodes.old.items) × (variables.new.items ≡ variables.old.items)) }
{
    let id = nodes.len();
    let count = variables.len();
    list_variable(variables, &node, id)?;
    if nodes.push(node).is_err() {
        variables.truncate(count);
        return Err(NoMemory);
    }
    Ok(())
}

/// Puts one more term behind the others, or nothing.
fn grow(
    nodes: &mut Vec<Node>,
    slots: &mut Vec<Slot>,
    variables: &mut Vec<usize>,
    ceilings: &mut Vec<u64>,
    marks: &mut Vec<u64>,
    node: Node,
    rank: u64,
) -> Result<(), NoMemory>
    requires slots { length slots.old.items ≡ length nodes.old.items }
    requires ceilings { length ceilings.old.items ≡ length slots.old.items }
    requires marks { length marks.old.items ≡ length slots.old.items }
    ensures nodes { OnOk result (nodes.new.items ≡ nodes.old.items ++ node ∷ []) }
    ensures slots { OnOk result (slots.new.items ≡ slots.old.items ++ new_slot (length nodes.old.items) rank ∷ []) }
    ensures variables { OnOk result (variables.new.items ≡ listed_with node variables.old.items (length nodes.old.items)) }
    ensures ceilings { OnOk result (ceilings.new.items ≡ ceilings.old.items ++ 18446744073709551615 ∷ []) }
    ensures marks { OnOk result (marks.new.items ≡ marks.old.items ++ 0 ∷ []) }
    ensures same { OnErr result ((nodes.new.items ≡ nodes.old.items) × (slots.new.items ≡ slots.old.items) × (variables.new.items ≡ variables.old.items) × (ceilings.new.items ≡ ceilings.old.items) × (marks.new.items ≡ marks.old.items)) }
{
    let id = nodes.len();
    grow_slots(slots, ceilings, marks, rank)?;
    if grow_nodes(nodes, variables, node).is_err() {
        slots.truncate(id);
        ceilings.truncate(id);
        marks.truncate(id);
        return Err(NoMemory);
    }
    Ok(())
}

/// The rank of a term without parts, 2^61, with room below for classes that have to stand lower.
const LEAF: u64 = 2305843009213693952;

/// The least rank of a new application, 2^62, with room below for variables that get values.
const APPLIED: u64 = 4611686018427387904;

/// Into how many shares the room above its parts is divided, of which an application takes one, 2^26.
const SHARES: u64 = 67108864;

/// The rank of an application, above its parts.
fn app_rank(slots: &[Slot], nodes: &[Node], f: usize, a: usize) -> Result<u64, NoMemory>
    requires sound { Sound nodes.now slots.now }
    requires f { f < length slots.now }
    requires a { a < length slots.now }
    ensures { IfOk result (λ r. (rank_of slots.now (root slots.now f) < r) × (rank_of slots.now (root slots.now a) < r)) }
{
    let left = slots[find(slots, f)].rank;
    let right = slots[find(slots, a)].rank;
    let most = left.max(right);
    if most == u64::MAX {
        return Err(NoMemory);
    }
    let gap = ((u64::MAX - most) / SHARES).max(1);
    Ok(APPLIED.max(most.saturating_add(gap)))
}

/// Sees to it that the ceilings of the parts of a term are no higher than its rank.
fn cap_new(nodes: &[Node], slots: &[Slot], ceilings: &mut Vec<u64>, at: usize, rank: u64)
    requires sound { Sound nodes.now slots.now }
    requires len { length ceilings.old.items ≡ length slots.now }
    requires at { at < length nodes.now }
    ensures lowered { Lowered ceilings.old.items ceilings.new.items }
    ensures capped { PartsCapped (node_at nodes.now at) slots.now ceilings.new.items rank }
{
    cap_parts(nodes, slots, ceilings, at, rank);
}

/// The same call over slices of the arena's parts.
fn unify_all(
    alloc: Global,
    nodes: &[Node],
    slots: &mut Vec<Slot>,
    ceilings: &mut Vec<u64>,
    marks: &mut Vec<u64>,
    clock: u64,
    a: usize,
    b: usize,
) -> Result<bool, NoMemory>
    requires sound { Sound nodes.now slots.old.items }
    requires order { AreOrdered nodes.now slots.old.items }
    requires capped { AreCapped nodes.now slots.old.items ceilings.old.items }
    requires ceilings { length ceilings.old.items ≡ length slots.old.items }
    requires len { length marks.old.items ≡ length slots.old.items }
    requires fresh { (i : ℕ) → mark_of marks.old.items i < clock }
    requires clock { clock + 1 < 2 ^ 64 }
    requires a { a < length slots.old.items }
    requires b { b < length slots.old.items }
    ensures sound { Sound nodes.now slots.new.items }
    ensures order { AreOrdered nodes.now slots.new.items }
    ensures capped { AreCapped nodes.now slots.new.items ceilings.new.items }
    ensures ceilings { length ceilings.new.items ≡ length slots.new.items }
    ensures fits { result ≡ Ok true → (q : ℕ → Term) → Fits nodes.now slots.new.items q ↔ (Fits nodes.now slots.old.items q × (q a ≡ q b)) }
    ensures none_fits { result ≡ Ok false → (q : ℕ → Term) → Fits nodes.now slots.old.items q → q a ≡ q b → ⊥ }
    ensures same { result ≢ Ok true → slots.new.items ≡ slots.old.items }
    ensures bounded { (i : ℕ) → mark_of marks.new.items i ≤ clock + 1 }
    ensures len { length marks.new.items ≡ length slots.new.items }
{
    unify(alloc, nodes, slots, ceilings, marks, clock, a, b)
}

/// Whether a number is among some.
fn has_number(numbers: &[u64], number: u64) -> bool
    ensures { result ≡ list_any (λ one. nat_eq one number) numbers.now }
{
    numbers.iter().any(|one| *one == number)
}

/// The same walk over slices of the arena's parts.
fn walk_all(
    alloc: Global,
    nodes: &[Node],
    slots: &[Slot],
    variables: &[usize],
    marks: &mut Vec<u64>,
    clock: u64,
    at: usize,
) -> Result<List<u64>, NoMemory>
    requires sound { Sound nodes.now slots.now }
    requires order { AreOrdered nodes.now slots.now }
    requires natural { AreNatural nodes.now slots.now }
    requires numbered { AreNumbered nodes.now variables.now }
    requires len { length marks.old.items ≡ length slots.now }
    requires fresh { (i : ℕ) → mark_of marks.old.items i < clock }
    requires at { at < length slots.now }
    ensures found { IfOk result (λ v. v ≡ places [] (solved_at nodes.now slots.now at)) }
    ensures bounded { (i : ℕ) → mark_of marks.new.items i ≤ clock }
    ensures len { length marks.new.items ≡ length slots.now }
{
    let found = variables_of(alloc, nodes, slots, variables, marks, clock, at)?;
    Ok(List::from_vec(found))
}

impl Terms {
    /// No terms yet; this takes no memory.
    pub fn new(alloc: Global) -> Terms
        ensures none { (size_of result ≡ 0) × (count_of result ≡ 0) }
        ensures rigid { (n : ℕ) → is_rigid result n ≡ false }
        ensures most_general { MostGeneral (is_rigid result) [] (solution result) }
    {
        Terms {
            alloc,
            nodes: Vec::new(alloc),
            slots: Vec::new(alloc),
            variables: Vec::new(alloc),
            ceilings: Vec::new(alloc),
            marks: Vec::new(alloc),
            clock: 1,
        }
    }

    /// How many terms there are; their places are the numbers below.
    pub fn size(&self) -> u64
        ensures { result ≡ size_of self.now }
    {
        self.nodes.len() as u64
    }

    /// How many variables there are, rigid ones among them; their numbers are those below.
    pub fn count(&self) -> u64
        ensures { result ≡ count_of self.now }
    {
        self.variables.len() as u64
    }

    /// The term that is the variable with a number below `count`.
    pub fn variable(&self, number: u64) -> TermId
        requires number { number < count_of self.now }
        ensures within { result.0 < size_of self.now }
        ensures made { made self.now result.0 ≡ var number }
    {
        TermId(self.variables[number as usize] as u64)
    }

    /// One more term, whose rank is above those of its parts.
    fn add(&mut self, node: Node, rank: u64) -> Result<TermId, NoMemory>
        requires parts { HasParts node (size_of self.old) }
        requires rank { PartsBelow node self.old.slots rank }
        requires number { IsNext node (count_of self.old) }
        ensures added { IfOk result (λ id. Added self.old self.new id.0 (layer node (made self.old))) }
        ensures count { OnOk result (count_of self.new ≡ count_with node (count_of self.old)) }
        ensures rigid { OnOk result ((n : ℕ) → is_rigid self.new n ≡ (is_rigid_number node n || is_rigid self.old n)) }
        ensures same { OnErr result (self.new ≡ self.old) }
    {
        let id = self.nodes.len();
        grow(
            &mut self.nodes,
            &mut self.slots,
            &mut self.variables,
            &mut self.ceilings,
            &mut self.marks,
            node,
            rank,
        )?;
        cap_new(&self.nodes, &self.slots, &mut self.ceilings, id, rank);
        Ok(TermId(id as u64))
    }

    /// One more variable, which is to be solved. NoMemory where memory runs out; then nothing has changed.
    pub fn fresh(&mut self) -> Result<TermId, NoMemory>
        ensures added { IfOk result (λ id. Added self.old self.new id.0 (var (count_of self.old))) }
        ensures count { OnOk result (count_of self.new ≡ count_of self.old + 1) }
        ensures rigid { OnOk result ((n : ℕ) → is_rigid self.new n ≡ is_rigid self.old n) }
        ensures same { OnErr result (self.new ≡ self.old) }
    {
        let number = self.variables.len() as u64;
        self.add(Node::Free(number), LEAF)
    }

    /// One more rigid variable, which no solution replaces and which is equal to itself alone. NoMemory where memory runs
    /// out; then nothing has changed.
    pub fn rigid(&mut self) -> Result<TermId, NoMemory>
        ensures added { IfOk result (λ id. Added self.old self.new id.0 (var (count_of self.old))) }
        ensures count { OnOk result (count_of self.new ≡ count_of self.old + 1) }
        ensures rigid { OnOk result ((n : ℕ) → is_rigid self.new n ≡ (nat_eq n (count_of self.old) || is_rigid self.old n)) }
        ensures same { OnErr result (self.new ≡ self.old) }
    {
        let number = self.variables.len() as u64;
        self.add(Node::Rigid(number), LEAF)
    }

    /// A constructor, equal to those of the same name alone. NoMemory where memory runs out; then nothing has changed.
    pub fn con(&mut self, name: &Name) -> Result<TermId, NoMemory>
        ensures added { IfOk result (λ id. Added self.old self.new id.0 (con name.now)) }
        ensures count { OnOk result (count_of self.new ≡ count_of self.old) }
        ensures rigid { OnOk result ((n : ℕ) → is_rigid self.new n ≡ is_rigid self.old n) }
        ensures same { OnErr result (self.new ≡ self.old) }
    {
        let name = name.copy(self.alloc)?;
        self.add(Node::Con(name), LEAF)
    }

    /// A term applied to another. NoMemory where memory runs out; then nothing has changed.
    pub fn app(&mut self, f: TermId, a: TermId) -> Result<TermId, NoMemory>
        requires f { f.0 < size_of self.old }
        requires a { a.0 < size_of self.old }
        ensures added { IfOk result (λ id. Added self.old self.new id.0 (app (made self.old f.0) (made self.old a.0))) }
        ensures count { OnOk result (count_of self.new ≡ count_of self.old) }
        ensures rigid { OnOk result ((n : ℕ) → is_rigid self.new n ≡ is_rigid self.old n) }
        ensures same { OnErr result (self.new ≡ self.old) }
    {
        let rank = app_rank(&self.slots, &self.nodes, f.0 as usize, a.0 as usize)?;
        self.add(Node::App(f.0 as usize, a.0 as usize), rank)
    }

    /// Makes two terms equal: true where the kept solution is now a most general one of this pair and of those before,
    /// false exactly where no substitution solves these. NoMemory where memory runs out. Unless it is true nothing has
    /// changed.
    pub fn unify(&mut self, a: TermId, b: TermId) -> Result<bool, NoMemory>
        requires a { a.0 < size_of self.old }
        requires b { b.0 < size_of self.old }
        ensures terms { SameTerms self.old self.new }
        ensures general { result ≡ Ok true → (pairs : List (Term × Term)) → MostGeneral (is_rigid self.old) pairs (solution self.old) → MostGeneral (is_rigid self.new) (pairs ++ (made self.old a.0, made self.old b.0) ∷ []) (solution self.new) }
        ensures none { result ≡ Ok false → (pairs : List (Term × Term)) → MostGeneral (is_rigid self.old) pairs (solution self.old) → (s : ℕ → Term) → Solves (is_rigid self.old) (pairs ++ (made self.old a.0, made self.old b.0) ∷ []) s → ⊥ }
        ensures same { result ≢ Ok true → self.new ≡ self.old }
    {
        let clock = self.clock;
        if clock > u64::MAX - 4 {
            return Err(NoMemory);
        }
        self.clock = clock + 2;
        unify_all(
            self.alloc,
            &self.nodes,
            &mut self.slots,
            &mut self.ceilings,
            &mut self.marks,
            clock,
            a.0 as usize,
            b.0 as usize,
        )
    }

    /// The numbers of the variables of a term under the kept solution, rigid ones among them, by first place. NoMemory where
    /// memory runs out. It is linear in the graph of the term.
    pub fn variables(&mut self, t: TermId) -> Result<List<u64>, NoMemory>
        requires t { t.0 < size_of self.old }
        ensures variables { IfOk result (λ v. v ≡ places [] (solved self.old t.0)) }
        ensures same { self.new ≡ self.old }
    {
        let clock = self.clock;
        if clock > u64::MAX - 4 {
            return Err(NoMemory);
        }
        self.clock = clock + 2;
        walk_all(
            self.alloc,
            &self.nodes,
            &self.slots,
            &self.variables,
            &mut self.marks,
            clock,
            t.0 as usize,
        )
    }

    /// Whether a term under the kept solution holds the variable with a number. NoMemory where memory runs out.
    pub fn holds(&mut self, t: TermId, number: u64) -> Result<bool, NoMemory>
        requires t { t.0 < size_of self.old }
        ensures holds { IfOk result (λ b. IsTrue b ↔ Occurs number (solved self.old t.0)) }
        ensures same { self.new ≡ self.old }
    {
        let found = self.variables(t)?;
        Ok(has_number(found.as_slice(), number))
    }

    /// One more term, made as a node was; a rigid variable is one that is to be solved.
    fn add_like(&mut self, node: &Node) -> Result<(), NoMemory>
        requires parts { HasParts node.now (size_of self.old) }
        ensures grown { OnOk result (Grown self.old self.new node.now) }
    {
        match node {
            Node::Free(_) => {
                self.fresh()?;
            }
            Node::Rigid(_) => {
                self.fresh()?;
            }
            Node::Con(name) => {
                self.con(name)?;
            }
            Node::App(f, a) => {
                self.app(TermId(*f as u64), TermId(*a as u64))?;
            }
        }
        Ok(())
    }

    /// The same terms, with nothing solved, and with rigid variables read as variables that are to be solved. NoMemory
    /// where memory runs out.
    pub fn relaxed(&self) -> Result<Terms, NoMemory>
        ensures { IfOk result (λ t. Relaxed self.now t) }
    {
        let mut terms = Terms::new(self.alloc);
        for at in 0..self.nodes.len() {
            terms.add_like(&self.nodes[at])?;
        }
        Ok(terms)
    }

    /// The type of a term under the kept solution; a variable that is not solved, or a rigid one, has its number. None
    /// exactly over 1,000 levels or 65,536 nodes, where what is shared counts each time. NoMemory where memory runs out.
    pub fn read_back(&self, t: TermId) -> Result<Option<Ty>, NoMemory>
        requires t { t.0 < size_of self.now }
        ensures found { IfOk result (λ o. IfSome o (λ ty. (term_of ty ≡ solved self.now t.0) × (depth (solved self.now t.0) ≤ 1000) × (size (solved self.now t.0) ≤ 65536))) }
        ensures under { solved self.now t.0 ≡ apply (solution self.now) (made self.now t.0) }
        ensures none { IfOk result (λ o. IfNone o ((1000 < depth (solved self.now t.0)) ⊎ (65536 < size (solved self.now t.0)))) }
    {
        let mut left = 65536;
        read(
            self.alloc,
            &self.nodes,
            &self.slots,
            t.0 as usize,
            1000,
            &mut left,
        )
    }
}
