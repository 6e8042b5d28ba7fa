// Lists of nodes, in which each node stands once at most.

ghost use Rattle.std.specs.Prelude.{◌≡◌, ◌≢◌, ◌<◌, ◌≤◌, ◌+◌, ◌++◌, [], ℕ, OnOk, length, map, replicate};
ghost use Rattle.rz_links.specs.Lists.{AreBelow, IsNext, IsPrev, StandsOnce, after, node_in, with_back, without};
ghost use Rattle.rz_links.specs.Calls.Chains.{Chains};
ghost use Rattle.rz_links.specs.Laws.Chains.{Chains-prop};

use crate::links::{
    Link, Place, add_heads, detach, move_after, move_before, next_of, prev_of, push_node,
};
use rz_num::OutOfMemory;
use std::alloc::Global;
use std::marker::Model;

/// Lists of nodes, in which each node stands once at most.
#[derive(Drop)]
pub struct Lists {
    heads: Vec<Link>,
    nodes: Vec<Link>,
    ghost chains: { Chains heads.items nodes.items } by { Chains-prop heads.items nodes.items },
}

impl Model for Lists {
    ghost use Rattle.rz_links.specs.Calls.Linked.{Linked, linked};
    ghost use Rattle.rz_links.specs.Calls.Links.{AreTwoWay};

    ghost Value = { Linked };

    ghost view = { λ a. linked a.chains.0 a.nodes a.heads };

    ghost invariant = { λ a. AreTwoWay a.heads.items a.nodes.items };
}

impl Lists {
    /// No lists of no nodes. It takes no memory.
    pub fn new(alloc: Global) -> Lists
        ensures lists { result.lists ≡ [] }
        ensures nodes { result.nodes ≡ 0 }
    {
        Lists {
            heads: Vec::new(alloc),
            nodes: Vec::new(alloc),
        }
    }

    /// Makes room for more lists. It refuses for want of memory alone.
    pub fn reserve_lists(&mut self, extra: usize) -> Result<(), OutOfMemory>
        ensures same { self.new ≡ record self.old { list_capacity = self.new.list_capacity } }
        ensures ok { OnOk result (length self.old.lists + extra ≤ self.new.list_capacity) }
    {
        self.heads.reserve(extra)?;
        Ok(())
    }

    /// Adds empty lists behind the others. It takes no memory.
    pub fn add_lists(&mut self, extra: usize)
        requires { length self.old.lists + extra ≤ self.old.list_capacity }
        ensures lists { self.new.lists ≡ self.old.lists ++ replicate extra [] }
        ensures nodes { self.new.nodes ≡ self.old.nodes }
        ensures capacity { self.new.capacity ≡ self.old.capacity }
    {
        add_heads(&mut self.heads, extra);
    }

    /// Makes room for more nodes. It refuses for want of memory alone.
    pub fn reserve(&mut self, extra: usize) -> Result<(), OutOfMemory>
        ensures lists { self.new.lists ≡ self.old.lists }
        ensures nodes { self.new.nodes ≡ self.old.nodes }
        ensures capacity { self.old.capacity ≤ self.new.capacity }
        ensures ok { OnOk result (self.old.nodes + extra ≤ self.new.capacity) }
    {
        self.nodes.reserve(extra)?;
        Ok(())
    }

    /// Makes a node at the back of a list. It takes no memory.
    pub fn insert_back(&mut self, list: usize)
        requires list { list < length self.old.lists }
        requires room { self.old.nodes < self.old.capacity }
        ensures lists { self.new.lists ≡ with_back self.old.lists list self.old.nodes }
        ensures nodes { self.new.nodes ≡ self.old.nodes + 1 }
        ensures capacity { self.old.capacity ≤ self.new.capacity }
    {
        let node = self.nodes.len();
        self.add_node();
        self.move_back(node, list);
    }

    /// Makes a node just after another. It takes no memory.
    pub fn insert_after(&mut self, other: usize)
        requires other { other < self.old.nodes }
        requires room { self.old.nodes < self.old.capacity }
        ensures lists { self.new.lists ≡ map (after other self.old.nodes) self.old.lists }
        ensures nodes { self.new.nodes ≡ self.old.nodes + 1 }
        ensures capacity { self.old.capacity ≤ self.new.capacity }
    {
        let node = self.nodes.len();
        self.add_node();
        self.move_after(node, other);
    }

    // Makes a node that is in no list.
    fn add_node(&mut self)
        requires { self.old.nodes < self.old.capacity }
        ensures lists { self.new.lists ≡ self.old.lists }
        ensures fresh { map (without self.old.nodes) self.old.lists ≡ self.old.lists }
        ensures nodes { self.new.nodes ≡ self.old.nodes + 1 }
        ensures capacity { self.old.capacity ≤ self.new.capacity }
    {
        push_node(&mut self.nodes);
    }

    /// The first node of a list.
    pub fn first(&self, list: usize) -> Option<usize>
        requires { list < length self.now.lists }
        ensures { result ≡ node_in self.now.lists list 0 }
    {
        next_of(&self.heads, &self.nodes, Place::Head(list)).node()
    }

    /// The node after a node, wherever that one stands.
    pub fn next(&self, node: usize) -> Option<usize>
        requires { node < self.now.nodes }
        ensures { IsNext self.now.lists node result }
    {
        next_of(&self.heads, &self.nodes, Place::Node(node)).node()
    }

    /// The node before a node, wherever that one stands.
    pub fn prev(&self, node: usize) -> Option<usize>
        requires { node < self.now.nodes }
        ensures { IsPrev self.now.lists node result }
    {
        prev_of(&self.heads, &self.nodes, Place::Node(node)).node()
    }

    /// A law: the lists have nodes alone, each of them at one place of one list.
    pub fn each_stands_once(&self)
        ensures once { (n : ℕ) → StandsOnce self.now.lists n }
        ensures nodes { AreBelow self.now.lists self.now.nodes }
    {
        let _ = &self.nodes;
    }

    /// Takes a node out of its list, if it is in one.
    pub fn unlink(&mut self, node: usize)
        requires { node < self.old.nodes }
        ensures { self.new ≡ record self.old { lists = map (without node) self.old.lists } }
    {
        detach(&mut self.heads, &mut self.nodes, Place::Node(node));
    }

    /// Moves a node to the back of a list, from its list if it is in one.
    pub fn move_back(&mut self, node: usize, list: usize)
        requires node { node < self.old.nodes }
        requires list { list < length self.old.lists }
        ensures { self.new ≡ record self.old { lists = with_back (map (without node) self.old.lists) list node } }
    {
        move_before(
            &mut self.heads,
            &mut self.nodes,
            Place::Node(node),
            Place::Head(list),
        );
    }

    /// Moves a node to the place after another, from its list if it is in one.
    pub fn move_after(&mut self, node: usize, other: usize)
        requires node { node < self.old.nodes }
        requires other { other < self.old.nodes }
        requires apart { node ≢ other }
        ensures { self.new ≡ record self.old { lists = map (after other node) (map (without node) self.old.lists) } }
    {
        move_after(
            &mut self.heads,
            &mut self.nodes,
            Place::Node(node),
            Place::Node(other),
        );
    }
}
