// Links between places.

ghost use Rattle.std.specs.Prelude.{◌≡◌, ◌≢◌, ◌+◌, ◌<◌, ◌≤◌, length, vec_len, vec_capacity};
ghost use Rattle.rz_links.specs.declared.links.Place.{Place as AnyPlace};
ghost use Rattle.rz_links.specs.Calls.Links.{AreTwoWay, Attached, Detached, HeadsKeep, IsPlace, JoinsLinks, MovedAfter, MovedBefore, NodesKeep, next_of, node_of, prev_of};

/// The head of a list, or a node.
#[derive(Clone, Copy)]
pub enum Place {
    Head(usize),
    Node(usize),
}

impl Place {
    /// The node, if it is one.
    pub fn node(self) -> Option<usize>
        ensures { result ≡ node_of self }
    {
        match self {
            Place::Head(_) => None,
            Place::Node(node) => Some(node),
        }
    }
}

/// What stands before a place and after it.
#[derive(Clone, Copy)]
pub struct Link {
    pub prev: Place,
    pub next: Place,
}

/// The place after a place.
pub fn next_of(heads: &[Link], nodes: &[Link], at: Place) -> Place
    requires { IsPlace (length heads.now) (length nodes.now) at }
    ensures { result ≡ next_of heads.now nodes.now at }
{
    match at {
        Place::Head(list) => heads[list].next,
        Place::Node(node) => nodes[node].next,
    }
}

/// The place before a place.
pub fn prev_of(heads: &[Link], nodes: &[Link], at: Place) -> Place
    requires { IsPlace (length heads.now) (length nodes.now) at }
    ensures { result ≡ prev_of heads.now nodes.now at }
{
    match at {
        Place::Head(list) => heads[list].prev,
        Place::Node(node) => nodes[node].prev,
    }
}

/// Adds heads of empty lists.
pub fn add_heads(heads: &mut Vec<Link>, extra: usize)
    requires { vec_len heads.old + extra ≤ vec_capacity heads.old }
    ensures len { length heads.new.items ≡ length heads.old.items + extra }
    ensures links { HeadsKeep heads.old.items heads.new.items }
{
    for _i in 0..extra {
        let head = Place::Head(heads.len());
        heads.push_reserved(Link {
            prev: head,
            next: head,
        });
    }
}

/// Adds a node that is alone.
pub fn push_node(nodes: &mut Vec<Link>)
    requires { vec_len nodes.old < vec_capacity nodes.old }
    ensures len { vec_len nodes.new ≡ vec_len nodes.old + 1 }
    ensures links { NodesKeep nodes.old.items nodes.new.items }
    ensures capacity { vec_capacity nodes.old ≤ vec_capacity nodes.new }
{
    let node = Place::Node(nodes.len());
    nodes.push_reserved(Link {
        prev: node,
        next: node,
    });
}

/// Takes a place out from between its neighbours.
pub fn detach(heads: &mut [Link], nodes: &mut [Link], at: Place)
    requires at { IsPlace (length heads.old) (length nodes.old) at }
    requires links { AreTwoWay heads.old nodes.old }
    ensures links { AreTwoWay heads.new nodes.new }
    ensures detached { Detached (next_of heads.old nodes.old) (next_of heads.new nodes.new) at }
{
    let prev = prev_of(heads, nodes, at);
    let next = next_of(heads, nodes, at);
    join(heads, nodes, prev, next);
    join(heads, nodes, at, at);
}

/// Moves a place to just after another.
pub fn move_after(heads: &mut [Link], nodes: &mut [Link], at: Place, other: Place)
    requires at { IsPlace (length heads.old) (length nodes.old) at }
    requires other { IsPlace (length heads.old) (length nodes.old) other }
    requires apart { other ≢ at }
    requires links { AreTwoWay heads.old nodes.old }
    ensures links { AreTwoWay heads.new nodes.new }
    ensures moved { MovedAfter (next_of heads.old nodes.old) (next_of heads.new nodes.new) at other }
{
    detach(heads, nodes, at);
    attach(heads, nodes, at, other);
}

/// Moves a place to just before another.
pub fn move_before(heads: &mut [Link], nodes: &mut [Link], at: Place, other: Place)
    requires at { IsPlace (length heads.old) (length nodes.old) at }
    requires other { IsPlace (length heads.old) (length nodes.old) other }
    requires apart { other ≢ at }
    requires links { AreTwoWay heads.old nodes.old }
    ensures links { AreTwoWay heads.new nodes.new }
    ensures moved { MovedBefore (next_of heads.old nodes.old) (next_of heads.new nodes.new) at other }
{
    detach(heads, nodes, at);
    let last = prev_of(heads, nodes, other);
    attach(heads, nodes, at, last);
}

/// Puts a place that is alone after another.
fn attach(heads: &mut [Link], nodes: &mut [Link], at: Place, other: Place)
    requires at { IsPlace (length heads.old) (length nodes.old) at }
    requires other { IsPlace (length heads.old) (length nodes.old) other }
    requires alone { next_of heads.old nodes.old at ≡ at }
    requires apart { other ≢ at }
    requires links { AreTwoWay heads.old nodes.old }
    ensures links { AreTwoWay heads.new nodes.new }
    ensures attached { Attached (next_of heads.old nodes.old) (next_of heads.new nodes.new) at other }
{
    let next = next_of(heads, nodes, other);
    join(heads, nodes, other, at);
    join(heads, nodes, at, next);
}

/// Makes `to` follow `from`.
fn join(heads: &mut [Link], nodes: &mut [Link], from: Place, to: Place)
    requires from { IsPlace (length heads.old) (length nodes.old) from }
    requires to { IsPlace (length heads.old) (length nodes.old) to }
    ensures { JoinsLinks heads.old nodes.old heads.new nodes.new from to }
{
    set_next(heads, nodes, from, to);
    set_prev(heads, nodes, to, from);
}

// Writes what follows a place.
fn set_next(heads: &mut [Link], nodes: &mut [Link], at: Place, to: Place)
    requires { IsPlace (length heads.old) (length nodes.old) at }
    ensures at { next_of heads.new nodes.new at ≡ to }
    ensures other { (r : AnyPlace) → r ≢ at → next_of heads.new nodes.new r ≡ next_of heads.old nodes.old r }
    ensures prev { (r : AnyPlace) → prev_of heads.new nodes.new r ≡ prev_of heads.old nodes.old r }
{
    match at {
        Place::Head(list) => heads[list].next = to,
        Place::Node(node) => nodes[node].next = to,
    }
}

// Writes what stands before a place.
fn set_prev(heads: &mut [Link], nodes: &mut [Link], at: Place, to: Place)
    requires { IsPlace (length heads.old) (length nodes.old) at }
    ensures at { prev_of heads.new nodes.new at ≡ to }
    ensures other { (r : AnyPlace) → r ≢ at → prev_of heads.new nodes.new r ≡ prev_of heads.old nodes.old r }
    ensures next { (r : AnyPlace) → next_of heads.new nodes.new r ≡ next_of heads.old nodes.old r }
{
    match at {
        Place::Head(list) => heads[list].prev = to,
        Place::Node(node) => nodes[node].prev = to,
    }
}
