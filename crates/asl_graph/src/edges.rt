// The transitions that a run took.
ghost use Rattle.std.specs.Prelude.{◌≡◌};
ghost use Rattle.asl_graph.specs.Edges.{is_way, is_edge, is_taken};

use asl_json_shared::Name;

/// How a state is left, or how it is entered where its machine begins there. Numbers count from 0.
#[derive(Clone, Copy, Debug)]
pub enum Way {
    /// Into it, from where its machine begins.
    Start,
    /// By `Next`.
    Next,
    /// By the rule of this number.
    Rule(usize),
    /// By `Default`.
    Default,
    /// By the catcher of this number.
    Catcher(usize),
}

/// A transition: the state that it leads from, or into where a machine begins, and how.
#[derive(Drop)]
pub struct Edge {
    pub state: Name,
    pub way: Way,
}

fn is_way(one: Way, other: Way) -> bool
    ensures { result ≡ is_way one other }
{
    match (one, other) {
        (Way::Start, Way::Start) | (Way::Next, Way::Next) | (Way::Default, Way::Default) => true,
        (Way::Rule(one), Way::Rule(other)) | (Way::Catcher(one), Way::Catcher(other)) => {
            one == other
        }
        _ => false,
    }
}

fn is_edge(edge: &Edge, state: &str, way: Way) -> bool
    ensures { result ≡ is_edge edge.now state.now way }
{
    edge.state.as_str() == state && is_way(edge.way, way)
}

/// Whether the transition of this state and way is among these.
pub fn is_taken(edges: &[Edge], state: &str, way: Way) -> bool
    ensures { result ≡ is_taken edges.now state.now way }
{
    for edge in edges {
        if is_edge(edge, state, way) {
            return true;
        }
    }
    false
}
