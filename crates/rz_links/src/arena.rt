// Nodes with values, each in one list of each of two families.

ghost use Rattle.std.specs.Prelude.{◌≡◌, ◌<◌, ◌≤◌, ℕ, Some, IfOk, OnOk, OnErr, length, slice_get};
ghost use Rattle.rz_links.specs.declared.arena.Family.{Family as AnyFamily};
ghost use Rattle.rz_links.specs.Lists.{AreBelow, IsNext, IsPrev, StandsOnce, node_in};
ghost use Rattle.rz_links.specs.Arena.{empty_arena, lists_of, with_empty_lists, with_node_after, with_node_at_back, with_node_moved, without_node};

use crate::lists::Lists;
use rz_num::OutOfMemory;
use std::alloc::Global;
use std::marker::Model;

/// A family of lists. Each node stands in a list of each family.
#[derive(Clone, Copy, Debug, PartialEq, Eq)]
pub enum Family {
    Out,
    In,
}

/// Nodes with values, each in one list of each family. Nodes are numbered from 0 on in the order in which they were
/// made, and no number is given twice; the lists of each family are numbered from 0 on. Every call but `new`,
/// `add_lists` and `reserve` takes constant time and no memory.
#[derive(Drop)]
pub struct Arena<T> {
    outs: Lists,
    ins: Lists,
    values: Vec<T>,
    spare: usize,
}

impl<T> Model for Arena<T> {
    ghost use Rattle.std.specs.Prelude.{vec_len, vec_capacity};
    ghost use Rattle.rz_links.specs.Arena.{Arena, arena_code};
    ghost use Rattle.rz_links.specs.Calls.Linked.{HasRoom};

    ghost Value = { Arena T };

    ghost coded = { arena_code T.code };

    ghost view = { λ a. record {
      outs = a.outs.lists;
      ins = a.ins.lists;
      values = a.values.items;
      spare = a.spare;
    } };

    ghost invariant = { λ a. HasRoom a.outs a.ins (vec_len a.values) (vec_capacity a.values) a.spare };
}

impl<T> Arena<T> {
    /// An arena of no nodes, with so many empty lists in each family. It refuses for want of memory alone.
    pub fn new(alloc: Global, out_lists: usize, in_lists: usize) -> Result<Arena<T>, OutOfMemory>
        ensures { IfOk result (λ arena. arena ≡ empty_arena out_lists in_lists) }
    {
        let mut outs = Lists::new(alloc);
        outs.reserve_lists(out_lists)?;
        outs.add_lists(out_lists);
        let mut ins = Lists::new(alloc);
        ins.reserve_lists(in_lists)?;
        ins.add_lists(in_lists);
        Ok(Arena {
            outs,
            ins,
            values: Vec::new(alloc),
            spare: 0,
        })
    }

    /// Adds so many empty lists behind those of each family. It refuses for want of memory alone, and then nothing
    /// changes.
    pub fn add_lists(&mut self, out_lists: usize, in_lists: usize) -> Result<(), OutOfMemory>
        ensures ok { OnOk result (self.new ≡ with_empty_lists self.old out_lists in_lists) }
        ensures err { OnErr result (self.new ≡ self.old) }
    {
        self.outs.reserve_lists(out_lists)?;
        self.ins.reserve_lists(in_lists)?;
        self.outs.add_lists(out_lists);
        self.ins.add_lists(in_lists);
        Ok(())
    }

    /// Makes room for so many nodes at least. It refuses for want of memory alone, and then nothing changes.
    pub fn reserve(&mut self, extra: usize) -> Result<(), OutOfMemory>
        ensures same { self.new ≡ record self.old { spare = self.new.spare } }
        ensures more { self.old.spare ≤ self.new.spare }
        ensures ok { OnOk result (extra ≤ self.new.spare) }
        ensures err { OnErr result (self.new ≡ self.old) }
    {
        self.outs.reserve(extra)?;
        self.ins.reserve(extra)?;
        self.values.reserve(extra)?;
        if self.spare < extra {
            self.spare = extra;
        }
        Ok(())
    }

    /// Makes a node at the back of a list of each family.
    pub fn insert_back(&mut self, value: T, out_list: usize, in_list: usize) -> usize
        requires out_list { out_list < length self.old.outs }
        requires in_list { in_list < length self.old.ins }
        requires room { 0 < self.old.spare }
        ensures node { result ≡ length self.old.values }
        ensures inserted { self.new ≡ with_node_at_back self.old value out_list in_list }
    {
        let node = self.values.len();
        self.values.push_reserved(value);
        self.outs.insert_back(out_list);
        self.ins.insert_back(in_list);
        self.spare -= 1;
        node
    }

    /// Makes a node just after another in its Out list, and at the back of an In list.
    pub fn insert_after(&mut self, value: T, node: usize, in_list: usize) -> usize
        requires node { node < length self.old.values }
        requires in_list { in_list < length self.old.ins }
        requires room { 0 < self.old.spare }
        ensures node { result ≡ length self.old.values }
        ensures inserted { self.new ≡ with_node_after self.old value node in_list }
    {
        let added = self.values.len();
        self.values.push_reserved(value);
        self.outs.insert_after(node);
        self.ins.insert_back(in_list);
        self.spare -= 1;
        added
    }

    /// Moves a node from its list of a family to the back of a list of that family.
    pub fn move_back(&mut self, node: usize, family: Family, list: usize)
        requires node { node < length self.old.values }
        requires list { list < length (lists_of self.old family) }
        ensures { self.new ≡ with_node_moved self.old node family list }
    {
        match family {
            Family::Out => self.outs.move_back(node, list),
            Family::In => self.ins.move_back(node, list),
        }
    }

    /// Takes a node out of its lists. Its number and its value stay.
    pub fn unlink(&mut self, node: usize)
        requires { node < length self.old.values }
        ensures { self.new ≡ without_node self.old node }
    {
        self.outs.unlink(node);
        self.ins.unlink(node);
    }

    /// The first node of a list; None exactly where it has none.
    pub fn first(&self, family: Family, list: usize) -> Option<usize>
        requires { list < length (lists_of self.now family) }
        ensures { result ≡ node_in (lists_of self.now family) list 0 }
    {
        match family {
            Family::Out => self.outs.first(list),
            Family::In => self.ins.first(list),
        }
    }

    /// The node after a node in its list of a family; None exactly where it is the last. Nothing is said of a node that
    /// was unlinked.
    pub fn next(&self, family: Family, node: usize) -> Option<usize>
        requires { node < length self.now.values }
        ensures { IsNext (lists_of self.now family) node result }
    {
        match family {
            Family::Out => self.outs.next(node),
            Family::In => self.ins.next(node),
        }
    }

    /// The node before a node in its list of a family; None exactly where it is the first. Nothing is said of a node
    /// that was unlinked.
    pub fn prev(&self, family: Family, node: usize) -> Option<usize>
        requires { node < length self.now.values }
        ensures { IsPrev (lists_of self.now family) node result }
    {
        match family {
            Family::Out => self.outs.prev(node),
            Family::In => self.ins.prev(node),
        }
    }

    /// The value of a node.
    pub fn value(&self, node: usize) -> &T
        requires { node < length self.now.values }
        ensures { slice_get self.now.values node ≡ Some result.now }
    {
        &self.values[node]
    }

    /// A law: each family's lists have nodes alone, each of them at one place of one list.
    pub fn each_stands_once(&self)
        ensures once { (f : AnyFamily) (n : ℕ) → StandsOnce (lists_of self.now f) n }
        ensures nodes { (f : AnyFamily) → AreBelow (lists_of self.now f) (length self.now.values) }
    {
        self.outs.each_stands_once();
        self.ins.each_stands_once();
    }
}
