//! Paths and their numbers.

ghost use Rattle.std.specs.Prelude.{ℕ, ◌≡◌, ◌↔◌, ◌<◌, [], ◌∷◌, ◌++◌, length, slice_get, Ok, Err, Some, IsOk, IfOk, OnOk, IfErr, OnErr, MatchOption};
ghost use Rattle.hv_limits.specs.Limits.{depth_limit};
ghost use Rattle.hv_vmid.specs.Paths.{ids_limit, IsNumber, parent_path, child_path, IsNew, IsNumbered};
ghost use Rattle.hv_vmid.specs.declared.ids.IdEnd.TheVariants.{Full, Memory};

use hv_map::Path;
use slab::Slab;
use std::alloc::Global;
use std::collections::HashMap;
use std::marker::Model;

/// How many paths can have numbers.
pub const IDS: usize = 65_536;

/// Why a path gets no number.
#[derive(Clone, Copy, Debug, PartialEq, Eq)]
pub enum IdEnd {
    /// `IDS` paths have numbers.
    Full,
    /// Memory is wanting.
    Memory,
}

// A machine: the number of its parent's path, none where that is the bare machine, and the last syllable of its own.
#[derive(Clone, Copy, PartialEq, Eq, Hash)]
struct Node {
    parent: Option<u32>,
    syllable: u32,
}

/// The paths that have numbers, each at its number: 0, 1, 2 and so on, as they were given. The path of a parent, unless
/// it is the bare machine's, has a smaller number.
#[derive(Drop)]
pub struct Ids {
    nodes: Slab<Node>,
    numbers: HashMap<Node, u32>,
}

impl Model for Ids {
    ghost use Rattle.std.specs.Prelude.{ℕ, List};
    ghost use Rattle.slab.specs.Slab.{slab_len};
    ghost use Rattle.std.specs.HashMap as hash;
    ghost use Rattle.hv_vmid.specs.Nodes.{paths_of, same_node, AreNodesKept};

    ghost Value = { List (List ℕ) };

    ghost view = { λ ids. paths_of ids.nodes.slots (slab_len ids.nodes) };

    ghost invariant = { λ ids. AreNodesKept ids.nodes.slots (slab_len ids.nodes) (hash.get same_node ids.numbers) };
}

/// The constant of the code is the number that the definitions speak of.
pub fn constant_is_the_limit()
    ensures { IDS ≡ ids_limit }
{}

impl Ids {
    /// No path has a number. It takes no memory.
    pub fn new(alloc: Global) -> Ids
        ensures { result ≡ [] }
    {
        Ids {
            nodes: Slab::new(alloc),
            numbers: HashMap::new(alloc),
        }
    }

    /// The number of a child's path, which is given here where it has none. The path is the one of the number `parent`,
    /// none for the bare machine, and the child's syllable.
    pub fn child_id(&mut self, parent: Option<u32>, syllable: u32) -> Result<u32, IdEnd>
        requires parent { IsNumber (length self.old) parent }
        requires depth { length (parent_path self.old parent) < depth_limit }

        // A path that has a number keeps it, and a new one gets the next.
        ensures known { let path = child_path self.old parent syllable in
            (k : ℕ) → slice_get self.old k ≡ Some path → (result ≡ Ok k) × (self.new ≡ self.old) }
        ensures added { let path = child_path self.old parent syllable in
            IsNew self.old path → IsOk result → (result ≡ Ok (length self.old)) × (self.new ≡ self.old ++ path ∷ []) }
        ensures named { IfOk result (λ k. slice_get self.new k ≡ Some (child_path self.old parent syllable)) }

        // Only a new path is refused, and then nothing changes.
        ensures full { let path = child_path self.old parent syllable in
            (result ≡ Err Full) ↔ (IsNew self.old path × (length self.old ≡ ids_limit)) }
        ensures memory { let path = child_path self.old parent syllable in
            result ≡ Err Memory → IsNew self.old path × (length self.old < ids_limit) }
        ensures refused { OnErr result (self.new ≡ self.old) }

        ensures numbered { IsNumbered self.new }
    {
        let node = Node { parent, syllable };
        if let Some(number) = self.number(&node) {
            return Ok(number);
        }
        if self.count() == IDS {
            return Err(IdEnd::Full);
        }
        self.add(node)
    }

    // How many paths have numbers.
    fn count(&self) -> usize
        ensures { result ≡ length self.now }
    {
        self.nodes.len()
    }

    // The number of a node's path.
    fn number(&self, node: &Node) -> Option<u32>
        requires { IsNumber (length self.now) node.now.parent }
        ensures found { let path = child_path self.now node.now.parent node.now.syllable in
            MatchOption result (IsNew self.now path) (λ k. slice_get self.now k ≡ Some path) }
        ensures numbered { IsNumbered self.now }
    {
        self.numbers.get(node).copied()
    }

    // Gives a path the next number.
    fn add(&mut self, node: Node) -> Result<u32, IdEnd>
        requires parent { IsNumber (length self.old) node.parent }
        requires depth { length (parent_path self.old node.parent) < depth_limit }
        requires room { length self.old < ids_limit }
        requires path { IsNew self.old (child_path self.old node.parent node.syllable) }
        ensures number { IfOk result (λ k. k ≡ length self.old) }
        ensures added { OnOk result (self.new ≡ self.old ++ child_path self.old node.parent node.syllable ∷ []) }
        ensures memory { IfErr result (λ end. end ≡ Memory) }
        ensures refused { OnErr result (self.new ≡ self.old) }
        ensures numbered { IsNumbered self.new }
    {
        let number = self.nodes.len();
        let Ok(()) = self.nodes.reserve(1) else {
            return Err(IdEnd::Memory);
        };
        // The slab promises that its next key is vacant, and not that it is the next number, which it is.
        if self.nodes.vacant_key() != number {
            return Err(IdEnd::Memory);
        }
        let Ok(_) = self.numbers.insert(node, number as u32) else {
            return Err(IdEnd::Memory);
        };
        self.nodes.insert_reserved(node);
        Ok(number as u32)
    }

    /// The path that has a number.
    pub fn path_of(&self, id: u32) -> Path
        requires { id < length self.now }
        ensures { slice_get self.now id ≡ Some result }
    {
        let node = self.nodes[id as usize];
        let mut path = match node.parent {
            Some(parent) => self.path_of(parent),
            None => Path::new(),
        };
        path.push(node.syllable);
        path
    }

    /// The number of a path, if it has one; that of the bare machine has none. It takes no memory.
    pub fn find(&self, path: &Path) -> Option<u32>
        ensures found { MatchOption result (IsNew self.now path.now) (λ k. slice_get self.now k ≡ Some path.now) }
        ensures numbered { IsNumbered self.now }
    {
        if self.nodes.is_empty() {
            return None;
        }
        let mut id = None;
        for syllable in path.as_slice() {
            let node = Node {
                parent: id,
                syllable: *syllable,
            };
            id = Some(self.number(&node)?);
        }
        id
    }

    /// Takes the numbers from all paths.
    pub fn drop_all(&mut self)
        ensures { self.new ≡ [] }
    {
        self.nodes.clear();
        self.numbers.clear();
    }
}
