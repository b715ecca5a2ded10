//! Marks of vertices: which hops follow a hop along chains.
ghost use Rattle.std.specs.Prelude.{◌≡◌, ◌↔◌, ◌<◌, ◌≤◌, ◌+◌, ℕ, false, length, replicate, IsTrue, IfOk};
ghost use Rattle.tree_routing.specs.Walks.{Leads};
ghost use Rattle.tree_routing.specs.Marks.{marked, unmarked, along, moves_along, pass, moves, passes, IsReach, AreBelow};

use crate::known::Known;
use rsvp_base::NoMemory;
use std::alloc::Global;

// Whether a vertex is marked.
fn is_marked(marks: &[bool], vertex: u16) -> bool
    ensures { result ≡ marked marks.now vertex }
{
    match marks.get(vertex as usize) {
        Some(mark) => *mark,
        None => false,
    }
}

// Whether a vertex is there and not marked.
fn is_unmarked(marks: &[bool], vertex: u16) -> bool
    ensures { result ≡ unmarked marks.now vertex }
{
    match marks.get(vertex as usize) {
        Some(mark) => !*mark,
        None => false,
    }
}

// Whether a mark is to be carried from the one vertex to the other.
fn is_to_move(marks: &[bool], before: Option<u16>, vertex: u16) -> bool
    ensures { result ≡ moves_along before vertex marks.now }
{
    match before {
        Some(before) => is_marked(marks, before) && is_unmarked(marks, vertex),
        None => false,
    }
}

// Carries a mark from the one vertex to the other; whether there was one to carry.
fn carry(marks: &mut [bool], before: Option<u16>, vertex: u16) -> bool
    ensures told { result ≡ moves_along before vertex marks.old }
    ensures marks { marks.new ≡ along before vertex marks.old }
{
    if is_to_move(marks, before, vertex) {
        marks[vertex as usize] = true;
        return true;
    }
    false
}

// Carries marks along each edge once; whether there was one to carry. Hops stand behind those before them in their tree, so
// that one pass goes along a tree to its end.
fn carry_all(marks: &mut [bool], hops: &[Known]) -> bool
    ensures told { result ≡ moves hops.now marks.old }
    ensures marks { marks.new ≡ pass hops.now marks.old }
{
    let mut moved = false;
    for hop in hops {
        if carry(marks, hop.before, hop.vertex) {
            moved = true;
        }
    }
    moved
}

// Carries marks until none is to be carried.
fn spread(marks: &mut [bool], hops: &[Known])
    ensures still { moves hops.now marks.new ≡ false }
    ensures passes { (n : ℕ) × (marks.new ≡ passes n hops.now marks.old) }
{
    let mut moved = true;
    while moved {
        moved = carry_all(marks, hops);
    }
}

// So many vertices without a mark.
fn no_marks(alloc: Global, n: usize) -> Result<Vec<bool>, NoMemory>
    ensures { IfOk result (λ marks. marks.items ≡ replicate n false) }
{
    Ok(vec![in alloc; false; n]?)
}

// Marks the vertices to which edges lead from one.
fn mark_from(marks: &mut [bool], hops: &[Known], from: u16)
    requires below { AreBelow (length marks.old) hops.now }
    requires from { from < length marks.old }
    requires none { (v : ℕ) → marked marks.old v ≡ false }
    ensures { IsReach hops.now from marks.new }
{
    marks[from as usize] = true;
    spread(marks, hops);
}

/// The vertices to which edges lead from one. `NoMemory`: there was no room for their marks.
pub(crate) fn reach(alloc: Global, hops: &[Known], from: u16) -> Result<Vec<bool>, NoMemory>
    requires below { AreBelow (length hops.now) hops.now }
    requires from { from ≤ length hops.now }
    requires few { length hops.now ≤ 8192 }
    ensures { IfOk result (λ marks. IsReach hops.now from marks.items) }
{
    let mut marks = no_marks(alloc, hops.len() + 1)?;
    mark_from(marks.as_mut_slice(), hops, from);
    Ok(marks)
}

/// Whether edges lead from the one vertex to the other. `NoMemory`: there was no room for the marks.
pub(crate) fn leads(alloc: Global, hops: &[Known], from: u16, to: u16) -> Result<bool, NoMemory>
    requires below { AreBelow (length hops.now) hops.now }
    requires from { from ≤ length hops.now }
    requires few { length hops.now ≤ 8192 }
    ensures { IfOk result (λ is. IsTrue is ↔ Leads hops.now from to) }
{
    let marks = reach(alloc, hops, from)?;
    Ok(is_marked(marks.as_slice(), to))
}
