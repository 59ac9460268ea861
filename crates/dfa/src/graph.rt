// Where a letter leads.
ghost use Rattle.std.specs.Prelude.{◌≡◌, ◌*◌, ◌<◌};
ghost use Rattle.dfa.specs.Graph.{Graph, δ, rest};

use crate::words::at;

// The state to which p goes by the letter m.
fn scan(graph: &[u32], n: usize, p: usize, m: usize) -> usize
    requires { Graph graph.now n × (p < n) }
    ensures { result ≡ δ graph.now n p m }
{
    let first = at(graph, p);
    let end = at(graph, p + 1);
    for i in first..end {
        if at(graph, n + 1 + 2 * i) == m {
            return at(graph, n + 2 + 2 * i);
        }
    }
    n - 1
}

// The state to which p goes by the letter m.
pub fn next_state(words: &[u32], n: usize, p: usize, m: usize) -> usize
    requires { Graph (rest (5 * n) words.now) n × (p < n) }
    ensures { result ≡ δ (rest (5 * n) words.now) n p m }
{
    let g = 5 * n;
    scan(&words[g..], n, p, m)
}
