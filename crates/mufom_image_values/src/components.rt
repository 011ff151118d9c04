//! The strongly connected components of the graph of publics, by Tarjan's algorithm without recursion.
//!
//! They only save time: the callers' results are proved for any numbers and any order, so no contract
//! describes components.

ghost use Rattle.mufom_image_values.specs.Evaluated.{IsGraph};

use crate::graph::Graph;
use mufom_numbers::NoMemory;
use std::alloc::Global;

/// A public whose mentions are being walked.
#[derive(Clone, Copy)]
struct Visit {
    public: u32,
    /// The next token to be looked at.
    token: u32,
    /// The least visit number that is known to be reached.
    low: u32,
}

/// The components of the publics: in each, those that lead to one another. They speed up the search for a
/// cycle and the evaluation of the publics.
#[derive(Drop)]
pub struct Components {
    /// The number of the component of each public, from 1: a public leads to no component with a greater one.
    pub(crate) numbers: Vec<u32>,
    /// The positions of the publics, each after those that it leads to unless these lead back to it.
    pub(crate) order: Vec<u32>,
}

// A walk over all publics, each entered before those that it mentions and left after them.
#[derive(Drop)]
struct Walk {
    /// The publics on the path from the root to the current one.
    visits: Vec<Visit>,
    /// The publics that were entered and are not in a component yet.
    open: Vec<u32>,
    /// The number under which each public was entered, from 1; 0 for a public that was not entered.
    seen: Vec<u32>,
    next_seen: u32,
    next_number: u32,
    components: Components,
}

impl Walk {
    // Enters a public.
    fn enter(&mut self, public: u32) -> Result<(), NoMemory> {
        let low = self.next_seen;
        self.visits.push(Visit {
            public,
            token: 0,
            low,
        })?;
        self.open.push(public)?;
        if let Some(seen) = self.seen.get_mut(public as usize) {
            *seen = low;
        }
        self.next_seen = low.wrapping_add(1);
        Ok(())
    }

    // Makes a component of the open publics, from the last one down to this one.
    fn close(&mut self, public: u32) -> Result<(), NoMemory> {
        for _ in 0..u64::MAX {
            let Some(member) = self.open.pop() else {
                break;
            };
            if let Some(number) = self.components.numbers.get_mut(member as usize) {
                *number = self.next_number;
            }
            self.components.order.push(member)?;
            if member == public {
                break;
            }
        }
        self.next_number = self.next_number.wrapping_add(1);
        Ok(())
    }

    // Leaves a public whose mentions were all walked. If they lead to no open public that was entered before
    // it, it completes a component.
    fn leave(&mut self, visit: Visit) -> Result<(), NoMemory> {
        if self.seen.get(visit.public as usize) == Some(&visit.low) {
            self.close(visit.public)?;
        }
        if let Some(parent) = self.visits.last_mut() {
            parent.low = parent.low.min(visit.low);
        }
        Ok(())
    }

    // Continues with a public: enters the next one that it mentions and that was not entered yet, or leaves
    // it.
    fn step(&mut self, graph: &Graph<'_>, visit: Visit) -> Result<(), NoMemory> {
        let tokens = graph.tokens(visit.public);
        let mut low = visit.low;
        for at in visit.token as usize..tokens.len() {
            let Some(next) = graph.mentioned(tokens[at]) else {
                continue;
            };
            let seen = self.seen.get(next as usize).copied().unwrap_or(0);
            if seen == 0 {
                self.visits.push(Visit {
                    public: visit.public,
                    token: (at as u32).wrapping_add(1),
                    low,
                })?;
                return self.enter(next);
            }
            if self.components.numbers.get(next as usize) == Some(&0) {
                low = low.min(seen);
            }
        }
        self.leave(Visit { low, ..visit })
    }
}

// Walks from a public until all publics that it leads to were walked.
fn walk_from(walk: &mut Walk, graph: &Graph<'_>, root: u32) -> Result<(), NoMemory> {
    walk.enter(root)?;
    for _ in 0..u64::MAX {
        let Some(visit) = walk.visits.pop() else {
            break;
        };
        walk.step(graph, visit)?;
    }
    Ok(())
}

/// Returns the strongly connected components of the publics. No contract describes them: the functions that
/// use them are proved to return the same results for any components.
///
/// The only error is out of memory.
pub fn components_of(alloc: Global, graph: &Graph<'_>) -> Result<Components, NoMemory>
    requires { IsGraph graph.now }
{
    let count = graph.publics().len();
    let mut walk = Walk {
        visits: Vec::new(alloc),
        open: Vec::new(alloc),
        seen: vec![in alloc; 0; count]?,
        next_seen: 1,
        next_number: 1,
        components: Components {
            numbers: vec![in alloc; 0; count]?,
            order: Vec::new(alloc),
        },
    };
    for root in 0..count {
        if walk.seen.get(root) == Some(&0) {
            walk_from(&mut walk, graph, root as u32)?;
        }
    }
    let Walk { components, .. } = walk;
    Ok(components)
}
