//! The nodes of all functions, with the joins of each function's own instructions. Nothing is known of its callees yet: a
//! call has nodes for them, which later joins reach by the list of calls.

ghost use Rattle.std.specs.Prelude.{◌≡◌, ◌<◌, ◌≤◌, ◌+◌, ℕ, [], Some, length, slice_get, vec_len, Contains, IfOk, OnOk};
ghost use Rattle.rgo_summaries.specs.declared.progress.Site.{Site as AnySite};
ghost use Rattle.rgo_summaries.specs.Beginning.{AddsFn, AreBegun, AreOwn, BeginsAt, BeginsCall, BeginsFn, Lists, Of, OwnHere, Passing, PassingBelow, own_in};
ghost use Rattle.rgo_summaries.specs.Joining.{GrowsBy, IsNodes};
ghost use Rattle.rgo_summaries.specs.Kinds as kinds;
ghost use Rattle.rgo_summaries.specs.Kinds.{kinds_to};
ghost use Rattle.rgo_summaries.specs.Progress.{AddsJoins, GrowsIn, IsProgress, size_in};
ghost use Rattle.rgo_summaries.specs.Views.{parts_of_call, call_sites_of};

use crate::calls::{Call, callee_at, is_pointer_like, number_of, passed, width_of};
use crate::nodes::{Nodes, add, no_nodes};
use crate::progress::{Progress, Site, join_in};
use rgo_tac::{Member, Tac, TacFn, joins};
use std::alloc::{AllocError, Global};

/// A call in the function of this number, whose nodes for the callee are numbered from a base on.
#[derive(Clone, Copy)]
struct Calling<'a> {
    caller: usize,
    function: &'a TacFn,
    call: Call<'a>,
    callee: &'a TacFn,
    base: usize,
}

/// A node for each member of a function.
fn own_nodes(alloc: Global, function: &TacFn) -> Result<Nodes, AllocError>
    ensures is { IfOk result IsNodes }
    ensures own { IfOk result (AreOwn function.now) }
{
    let mut nodes = no_nodes(alloc);
    let width = width_of(function);
    for number in 0..function.variables().len() + 2 {
        add(alloc, &mut nodes, number < width)?;
    }
    Ok(nodes)
}

fn grow(alloc: Global, nodes: &mut Nodes, count: usize) -> Result<(), AllocError>
    requires { IsNodes nodes.old }
    ensures is { OnOk result (IsNodes nodes.new) }
    ensures grows { OnOk result (GrowsBy nodes.old nodes.new count) }
{
    for added in 0..count {
        add(alloc, nodes, false)?;
    }
    Ok(())
}

/// Adds nodes to a function, and returns the number of the first.
fn grow_in(
    alloc: Global,
    progress: &mut Progress,
    function: usize,
    count: usize,
) -> Result<usize, AllocError>
    requires is { IsProgress progress.old }
    requires inside { function < length progress.old.nodes.items }
    ensures is { OnOk result (IsProgress progress.new) }
    ensures grows { OnOk result (GrowsIn progress.old progress.new function count) }
    ensures base { IfOk result (λ base. base ≡ size_in progress.old.nodes.items function) }
{
    let nodes = &mut progress.nodes[function];
    let base = nodes.labels.len();
    grow(alloc, nodes, count)?;
    Ok(base)
}

/// Joins the node that a call has for a member of the callee to the member that is passed for it. Both have to be pointer-like: other
/// values lead into no region.
fn pass(
    alloc: Global,
    progress: &mut Progress,
    calling: Calling<'_>,
    number: usize,
) -> Result<(), AllocError>
    requires is { IsProgress progress.old }
    requires own { length calling.function.now.variables + 2 ≤ size_in progress.old.nodes.items calling.caller }
    requires inside { calling.base + number < size_in progress.old.nodes.items calling.caller }
    requires outer { number < kinds.width_of calling.callee.now }
    ensures is { OnOk result (IsProgress progress.new) }
    ensures adds { OnOk result (AddsJoins progress.old progress.new (Passing calling.entry number)) }
{
    match passed(calling.call, number) {
        Some(actual) => {
            if is_pointer_like(calling.callee, number)
                && is_pointer_like(calling.function, actual)
            {
                let node = calling.base + number;
                return join_in(alloc, progress, calling.caller, node, actual);
            }
            Ok(())
        }
        None => Ok(()),
    }
}

/// Joins the nodes of a call to what is passed for them.
fn pass_all(alloc: Global, progress: &mut Progress, calling: Calling<'_>) -> Result<(), AllocError>
    requires is { IsProgress progress.old }
    requires own { length calling.function.now.variables + 2 ≤ size_in progress.old.nodes.items calling.caller }
    requires inside { calling.base + kinds.width_of calling.callee.now
        ≤ size_in progress.old.nodes.items calling.caller }
    ensures is { OnOk result (IsProgress progress.new) }
    ensures adds { OnOk result (AddsJoins progress.old progress.new
        (PassingBelow calling.entry (kinds.width_of calling.entry.callee.now))) }
{
    for number in 0..width_of(calling.callee) {
        pass(alloc, progress, calling, number)?;
    }
    Ok(())
}

/// The members that an instruction joins by itself.
fn own_joins(function: &TacFn, at: usize) -> Option<(Member, Member)>
    ensures { result ≡ own_in function.now (slice_get function.now.body at) }
{
    match function.op(at) {
        Some(op) => joins(function, op),
        None => None,
    }
}

/// Joins what an instruction other than a call joins.
fn begin_own(
    alloc: Global,
    progress: &mut Progress,
    n: usize,
    function: &TacFn,
    at: usize,
) -> Result<(), AllocError>
    requires is { IsProgress progress.old }
    requires own { length function.now.variables + 2 ≤ size_in progress.old.nodes.items n }
    ensures is { OnOk result (IsProgress progress.new) }
    ensures adds { OnOk result (AddsJoins progress.old progress.new (Of n (OwnHere function.now at))) }
{
    match own_joins(function, at) {
        Some((one, other)) => join_in(alloc, progress, n, number_of(one), number_of(other)),
        None => Ok(()),
    }
}

/// Lists a call of a function.
fn list(sites: &mut Vec<Vec<Site>>, function: usize, site: Site) -> Result<(), AllocError>
    requires { function < vec_len sites.old }
    ensures { OnOk result (Lists sites.old.items sites.new.items function site) }
{
    sites[function].push(site)?;
    Ok(())
}

/// Adds the nodes of a call: one for each member of the callee that callers see, joined to what is passed for it.
fn begin_call(
    alloc: Global,
    progress: &mut Progress,
    sites: &mut Vec<Vec<Site>>,
    caller: usize,
    function: &TacFn,
    call: Call<'_>,
    callee: &TacFn,
) -> Result<(), AllocError>
    requires is { IsProgress progress.old }
    requires own { length function.now.variables + 2 ≤ size_in progress.old.nodes.items caller }
    requires called { call.function < vec_len sites.old }
    ensures is { OnOk result (IsProgress progress.new) }
    ensures begins { OnOk result (BeginsCall caller function.now (parts_of_call call.entry) callee.now
        progress.old.nodes.items progress.new.nodes.items sites.old.items sites.new.items) }
{
    let base = grow_in(alloc, progress, caller, width_of(callee))?;
    list(sites, call.function as usize, Site { caller, base })?;
    let calling = Calling {
        caller,
        function,
        call,
        callee,
        base,
    };
    pass_all(alloc, progress, calling)
}

/// Adds the nodes and joins of one instruction.
fn begin_at(
    alloc: Global,
    code: &Tac,
    progress: &mut Progress,
    sites: &mut Vec<Vec<Site>>,
    n: usize,
    function: &TacFn,
    at: usize,
) -> Result<(), AllocError>
    requires is { IsProgress progress.old }
    requires known { slice_get code.now.functions n ≡ Some function.now }
    requires size { size_in progress.old.nodes.items n ≡ length (kinds_to code.now function.now at) }
    requires sites { vec_len sites.old ≡ length code.now.functions }
    ensures is { OnOk result (IsProgress progress.new) }
    ensures begins { OnOk result (BeginsAt code.now n function.now at
        progress.old.nodes.items progress.new.nodes.items sites.old.items sites.new.items) }
{
    match callee_at(code, function, at) {
        Some((call, callee)) => begin_call(alloc, progress, sites, n, function, call, callee),
        None => begin_own(alloc, progress, n, function, at),
    }
}

/// The nodes of the next function's members.
fn add_function(alloc: Global, progress: &mut Progress, function: &TacFn) -> Result<(), AllocError>
    requires { IsProgress progress.old }
    ensures is { OnOk result (IsProgress progress.new) }
    ensures adds { OnOk result (AddsFn function.now progress.old progress.new) }
{
    let nodes = own_nodes(alloc, function)?;
    progress.nodes.push(nodes)?;
    Ok(())
}

/// Adds the nodes and joins of the next function.
fn begin(
    alloc: Global,
    code: &Tac,
    progress: &mut Progress,
    sites: &mut Vec<Vec<Site>>,
    n: usize,
    function: &TacFn,
) -> Result<(), AllocError>
    requires is { IsProgress progress.old }
    requires known { slice_get code.now.functions n ≡ Some function.now }
    requires next { vec_len progress.old.nodes ≡ n }
    requires sites { vec_len sites.old ≡ length code.now.functions }
    ensures is { OnOk result (IsProgress progress.new) }
    ensures begins { OnOk result (BeginsFn code.now n function.now progress.old.nodes.items progress.new.nodes.items
        sites.old.items sites.new.items (length function.now.body)) }
{
    add_function(alloc, progress, function)?;
    for at in 0..function.len() {
        begin_at(alloc, code, progress, sites, n, function, at)?;
    }
    Ok(())
}

fn no_sites(alloc: Global, count: usize) -> Result<Vec<Vec<Site>>, AllocError>
    ensures len { IfOk result (λ sites. vec_len sites ≡ count) }
    ensures none { IfOk result (λ sites. (g : ℕ) (s : AnySite) → Contains (call_sites_of sites.items g) s → ⊥) }
{
    let mut sites: Vec<Vec<Site>> = Vec::new(alloc);
    for done in 0..count {
        sites.push(Vec::new(alloc))?;
    }
    Ok(sites)
}

/// The nodes of each function, and where it is called.
#[derive(Drop)]
pub(crate) struct Begun {
    pub progress: Progress,
    pub sites: Vec<Vec<Site>>,
}

/// Adds the nodes and joins of all functions.
///
/// # Errors
///
/// On allocation failure.
pub(crate) fn begin_all(alloc: Global, code: &Tac) -> Result<Begun, AllocError>
    ensures is { IfOk result (λ begun. IsProgress begun.progress) }
    ensures begun { IfOk result (λ begun. AreBegun code.now begun.progress.nodes.items begun.sites.items) }
{
    let functions = code.functions();
    let mut progress = Progress {
        nodes: Vec::new(alloc),
        log: Vec::new(alloc),
    };
    let mut sites = no_sites(alloc, functions.len())?;
    for (n, function) in functions.iter().enumerate() {
        begin(alloc, code, &mut progress, &mut sites, n, function)?;
    }
    Ok(Begun { progress, sites })
}
