//! Labels, one for each class: of two classes that are joined, the smaller is relabelled. Row l of `members` always has exactly the
//! members with label l, so that a class is relabelled without a search for its members.

ghost use Rattle.std.specs.Prelude.{◌≡◌, ◌≢◌, ◌<◌, ◌+◌, ℕ, length, vec_len, slice_index, Contains, [], ◌∷◌, IfOk, OnOk};
ghost use Rattle.rgo_classes.specs.Labels as spec;
ghost use Rattle.rgo_classes.specs.Labels.{AreFor, AreLabels, IsIn, JoinsAlso, NoJoins, Pair, label_of};
ghost use Rattle.rgo_classes.specs.Moves.{AreRows, Merges, MovesTo, Relabels, members_of_label, member_rows};

use rgo_tac::{Member, TacFn};
use std::alloc::{AllocError, Global};
use std::marker::Model;

/// A label for each member of a function.
#[derive(Drop)]
pub struct Labels {
    labels: Vec<usize>,
    /// The members of each label, by their places in `labels`.
    members: Vec<Vec<usize>>,
}

impl Model for Labels {
    ghost use Rattle.std.specs.Prelude.{List, ℕ};
    ghost use Rattle.rgo_classes.specs.Moves.{AreRows, member_rows};

    ghost Value = { List ℕ };

    ghost view = { λ l. l.labels.items };

    ghost invariant = { λ l. AreRows l.labels.items (member_rows l.members.items) };
}

/// The place of a member in a list of labels.
fn number_of(member: Member) -> usize
    ensures { result ≡ spec.member_index member }
{
    match member {
        Member::Global => 0,
        Member::Result => 1,
        Member::Variable(v) => v as usize + 2,
    }
}

/// How many members a function has.
fn count_members(function: &TacFn) -> usize
    ensures { result ≡ length function.now.variables + 2 }
{
    function.variable_count() as usize + 2
}

fn own_labels(alloc: Global, count: usize) -> Result<Vec<usize>, AllocError>
    ensures len { IfOk result (λ labels. vec_len labels ≡ count) }
    ensures own { IfOk result (λ labels. (m : ℕ) → m < count → slice_index labels.items m ≡ m) }
{
    let mut labels = Vec::new(alloc);
    for m in 0..count {
        labels.push(m)?;
    }
    Ok(labels)
}

fn own_row(alloc: Global, member: usize) -> Result<Vec<usize>, AllocError>
    ensures { IfOk result (λ row. row.items ≡ member ∷ []) }
{
    let mut row = Vec::new(alloc);
    row.push(member)?;
    Ok(row)
}

fn own_rows(alloc: Global, count: usize) -> Result<Vec<Vec<usize>>, AllocError>
    ensures len { IfOk result (λ rows. vec_len rows ≡ count) }
    ensures own { IfOk result (λ rows. (m : ℕ) → m < count → members_of_label (member_rows rows.items) m ≡ m ∷ []) }
{
    let mut rows = Vec::new(alloc);
    for m in 0..count {
        rows.push(own_row(alloc, m)?)?;
    }
    Ok(rows)
}

/// Replaces the labels of members.
fn relabel(labels: &mut [usize], members: &[usize], label: usize)
    requires inside { (m : ℕ) → Contains members.now m → m < length labels.old }
    ensures relabels { Relabels labels.old labels.new members.now label }
{
    for m in members {
        labels[*m] = label;
    }
}

/// Moves the members of one label to another. Row l has the members with label l. `rgo_summaries` joins its nodes by it, too.
///
/// # Errors
///
/// On allocation failure.
pub fn merge(
    alloc: Global,
    labels: &mut [usize],
    rows: &mut [Vec<usize>],
    from: usize,
    to: usize,
) -> Result<(), AllocError>
    requires from { from < length rows.old }
    requires to { to < length rows.old }
    requires apart { from ≢ to }
    requires rows { AreRows labels.old (member_rows rows.old) }
    ensures size { length labels.new ≡ length labels.old }
    ensures len { length rows.new ≡ length rows.old }
    ensures merged { OnOk result (MovesTo labels.old labels.new from to) }
    ensures rows { AreRows labels.new (member_rows rows.new) }
{
    // A copy, since two rows of one slice cannot be borrowed at once.
    let moved = Vec::from_slice(alloc, &rows[from])?;
    rows[to].extend_from_slice(&moved)?;
    rows[from].clear();
    relabel(labels, &moved, to);
    Ok(())
}

#[tactic(auto, using(crate::proofs::Rows::label_in_rows))]
/// Joins the classes of two members. The smaller one is relabelled, so that of n members none is relabelled more often than
/// log n times.
fn join_numbers(
    alloc: Global,
    labels: &mut [usize],
    rows: &mut [Vec<usize>],
    a: usize,
    b: usize,
) -> Result<(), AllocError>
    requires a { a < length labels.old }
    requires b { b < length labels.old }
    requires rows { AreRows labels.old (member_rows rows.old) }
    ensures size { length labels.new ≡ length labels.old }
    ensures len { length rows.new ≡ length rows.old }
    ensures rows { AreRows labels.new (member_rows rows.new) }
    ensures merged { OnOk result (Merges labels.old labels.new a b) }
{
    let (from, to) = (labels[a], labels[b]);
    if from == to {
        return Ok(());
    }
    if rows[from].len() <= rows[to].len() {
        merge(alloc, labels, rows, from, to)
    } else {
        merge(alloc, labels, rows, to, from)
    }
}

impl Labels {
    /// Labels that all differ.
    ///
    /// # Errors
    ///
    /// On allocation failure.
    pub fn new(alloc: Global, function: &TacFn) -> Result<Labels, AllocError>
        ensures fits { IfOk result (AreFor function.now) }
        ensures apart { IfOk result (AreLabels NoJoins) }
    {
        let count = count_members(function);
        let labels = own_labels(alloc, count)?;
        let members = own_rows(alloc, count)?;
        Ok(Labels { labels, members })
    }

    /// These labels. Row l has the members of label l, by their places in `labels`.
    pub fn of(labels: Vec<usize>, rows: Vec<Vec<usize>>) -> Labels
        requires { AreRows labels.items (member_rows rows.items) }
        ensures { result ≡ labels.items }
    {
        Labels {
            labels,
            members: rows,
        }
    }

    /// How many labels there are.
    pub fn len(&self) -> usize
        ensures { result ≡ length self.now }
    {
        self.labels.len()
    }

    /// Joins the classes of two members.
    ///
    /// # Errors
    ///
    /// On allocation failure.
    pub fn join(&mut self, alloc: Global, a: Member, b: Member) -> Result<(), AllocError>
        requires a { IsIn self.old a }
        requires b { IsIn self.old b }
        ensures len { length self.new ≡ length self.old }
        ensures joined { OnOk result (JoinsAlso self.old (Pair a b) self.new) }
    {
        join_numbers(
            alloc,
            self.labels.as_mut_slice(),
            self.members.as_mut_slice(),
            number_of(a),
            number_of(b),
        )
    }

    /// The label of a member. Members have one label exactly if they are in one class.
    pub fn label(&self, member: Member) -> usize
        requires { IsIn self.now member }
        ensures label { result ≡ label_of self.now member }
        ensures below { result < length self.now }
    {
        self.labels[number_of(member)]
    }
}
