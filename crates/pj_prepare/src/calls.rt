// What a request asks for: a plan, and for a run a file for each of its streams; or an input that is made.
ghost use Rattle.std.specs.Prelude.{ℕ, ◌≡◌, ◌≤◌, ◌^◌, ◌∷◌, [], Option, Some, None, Ok, Err, IsTrue, IfOk, IfErr, OnOk, length, take};
ghost use Rattle.pj_io.specs.States.{FolderState};
ghost use Rattle.pj_io.specs.Folders.{NoneFalls, SameElsewhere};
ghost use Rattle.pj_plan.specs.Nodes.{streams_of};
ghost use Rattle.pj_plan_text.specs.PlanRead.{plan_read};
ghost use Rattle.pj_safety.specs.Certificates.{AreCertificates, certificates_of};
ghost use Rattle.pj_safety.specs.Safety.{IsSafePlan};
ghost use Rattle.pj_prepare.specs.Calls.{call_for, file_names, form_by, operand, plan_bytes, HasReadPlan, HasToldPlan};
ghost use Rattle.pj_feed.specs.Opened.{OpensFirst, OpensAtMost, IsReadToEnd, StayOutside};
ghost use Rattle.pj_prepare.specs.Plans.{outline_in, plan_of, IsAsked, SpellsPlan};
ghost use Rattle.pj_prepare.specs.Ready.{IsReadyFor};
ghost use Rattle.pj_prepare.specs.Refusals.{BytesRefused, HasLines, PlanCause, PlanUnfit, Unprepared, counted_files};
ghost use Rattle.pj_run.specs.Runs.{IsNewCore};
ghost use Rattle.pj_words.specs.Request.{IsRequest};

use crate::plan_file::read_file;
use crate::stops::PlanStop;
use pj_core::Core;
use pj_io::Folder;
use pj_judge::{Judged, judge};
use pj_plan::{Plan, PlanStop as ReadStop};
use pj_plan_text::read_plan;
use pj_report::Form;
use pj_run::Writing;
use pj_shape::Cert;
use pj_value::{Bytes, List, NoMemory};
use pj_words::Request;
use std::alloc::Global;

/// What a run is asked for beside its files.
#[derive(Clone, Copy)]
pub struct Options {
    /// Whether the rows that sweeps remove are noted.
    pub trace: bool,
    /// How many elements may arrive at a join or a group, from 1 to 2^40.
    pub limit: u64,
    /// The form in which results are written.
    pub form: Form,
    /// Whether the report has the line of a check.
    pub check: bool,
}

/// What a run begins with.
#[derive(Drop)]
pub struct Prepared {
    /// A core of the plan, to which nothing has come yet.
    pub core: Core,
    /// What the run is to write.
    pub writing: Writing,
}

/// What is ready to be done.
#[derive(Drop)]
pub enum Ready {
    /// A run, where a script may be played first.
    Run { ready: Prepared },
    /// The check of a plan, which is to be printed or not.
    Check { plan: Plan, print: bool },
    /// A run over an input that is made from this seed, of so many items.
    Make { seed: u32, count: u32 },
}

/// What is to be done of the request, which is one that words can make: a core of the plan that it names, if it asks for a run, and
/// the plan is safe and has a stream for each file; the plan itself, safe or not, if it is to be checked; or what input is to be made.
/// A script is left for `read_steps`.
///
/// The plan's file, if the request names one, is opened, read to its end and closed, and no other is. `File` comes where it was not
/// read, with the cause; `Refused` where its bytes have a fault, with the first; `FileCount` where a plan that is to be run has another
/// number of streams than the request has files; `Unsafe` where it has the right one and a node of it is not safe; `NoMemory` where
/// memory was wanting. After each of these at most the plan's file was opened, and it is closed; what the folder's files have is the
/// same, no count of their faults fell, and of other names nothing changed.
pub fn prepare<F: Folder>(
    alloc: Global,
    request: &Request,
    folder: &mut F,
) -> Result<Ready, PlanStop>
    requires { IsRequest request.now }
    ensures ready { IfOk result (IsReadyFor (call_for request.now (F.state folder.old))) }
    ensures told { (F.state folder.new).told ≡ (F.state folder.old).told }
    ensures contents { (F.state folder.new).contents ≡ (F.state folder.old).contents }
    ensures last { OnOk result (HasReadPlan (call_for request.now (F.state folder.old)) (F.state folder.new)) }
    ensures other_last { OnOk result (SameElsewhere (operand (call_for request.now (F.state folder.old)).names 1) (F.state folder.old).last (F.state folder.new).last) }
    ensures later { NoneFalls (F.state folder.old).faults (F.state folder.new).faults }
    ensures some_opened { OpensAtMost 1 (call_for request.now (F.state folder.old)).names (F.state folder.old) (F.state folder.new) }
    ensures was_opened { OnOk result (OpensFirst 1 (call_for request.now (F.state folder.old)).names (F.state folder.old) (F.state folder.new)) }
    ensures others { StayOutside (take 1 (call_for request.now (F.state folder.old)).names) (F.state folder.old) (F.state folder.new) }
    ensures cause { IfErr result (λ stop. Unprepared stop (call_for request.now (F.state folder.old)) (F.state folder.new)) }
{
    match request {
        Request::Run {
            plan,
            files,
            workers: _,
            sorted,
            trace,
            check,
            limit,
        } => {
            let options = Options {
                trace: *trace,
                limit: *limit,
                form: form_for(*sorted),
                check: *check,
            };
            let ready = prepare_run(alloc, plan.as_slice(), files.len(), options, folder)?;
            Ok(Ready::Run { ready })
        }
        Request::Replay {
            plan,
            script: _,
            files,
            trace,
            limit,
        } => {
            let options = Options {
                trace: *trace,
                limit: *limit,
                form: Form::AsTheyCome,
                check: false,
            };
            let ready = prepare_run(alloc, plan.as_slice(), files.len(), options, folder)?;
            Ok(Ready::Run { ready })
        }
        Request::Check { plan, print } => {
            let plan = read_plan_of(alloc, plan.as_slice(), folder)?;
            Ok(Ready::Check {
                plan,
                print: *print,
            })
        }
        Request::Make { seed, count } => Ok(Ready::Make {
            seed: *seed,
            count: *count,
        }),
    }
}

/// The names of the streams' files that the request has, in order: those of a run or a replay, and none of a check or a made input.
pub fn files_in(request: &Request) -> &[Bytes]
    ensures { (folder : FolderState) → result.now ≡ file_names (call_for request.now folder) }
{
    match request {
        Request::Run { files, .. } => files.as_slice(),
        Request::Replay { files, .. } => files.as_slice(),
        Request::Check { .. } => &[],
        Request::Make { .. } => &[],
    }
}

// A core of the plan of this name, if it has so many streams, and what its run is to write.
#[tactic(auto, using(crate::proofs::Refusing::cause_of_run, crate::proofs::Refusing::unfit_cause, crate::proofs::Refusing::spelled_core))]
fn prepare_run<F: Folder>(
    alloc: Global,
    name: &[u8],
    files: usize,
    options: Options,
    folder: &mut F,
) -> Result<Prepared, PlanStop>
    requires limit { (1 ≤ options.limit) × (options.limit ≤ 2 ^ 40) }
    ensures fresh { IfOk result (λ ready. IsNewCore ready.core) }
    ensures safe { IfOk result (λ ready. IsSafePlan ready.core.plan.nodes) }
    ensures count { IfOk result (λ ready. files ≡ length (streams_of ready.core.plan.nodes)) }
    ensures asked { IfOk result (IsAsked options) }
    ensures told { (F.state folder.new).told ≡ (F.state folder.old).told }
    ensures contents { (F.state folder.new).contents ≡ (F.state folder.old).contents }
    ensures read { IsTrue ((F.state folder.old).told name.now) → IfOk result (λ ready. SpellsPlan ((F.state folder.old).contents name.now) (outline_in ready.core)) }
    ensures last { IsTrue ((F.state folder.old).told name.now) → OnOk result (IsReadToEnd name.now (F.state folder.old) (F.state folder.new)) }
    ensures other_last { SameElsewhere name.now (F.state folder.old).last (F.state folder.new).last }
    ensures later { NoneFalls (F.state folder.old).faults (F.state folder.new).faults }
    ensures some_opened { OpensAtMost 1 (name.now ∷ []) (F.state folder.old) (F.state folder.new) }
    ensures was_opened { OnOk result (OpensFirst 1 (name.now ∷ []) (F.state folder.old) (F.state folder.new)) }
    ensures others { StayOutside (name.now ∷ []) (F.state folder.old) (F.state folder.new) }
    ensures cause { IfErr result (λ stop. PlanCause stop (Some files) name.now (F.state folder.old) (F.state folder.new)) }
{
    let plan = read_plan_of(alloc, name, folder)?;
    Ok(ready_for(alloc, plan, files, options)?)
}

/// A core of the plan that the bytes spell, if it has so many streams and is safe, and what its run is to write. The limit of the
/// options lies from 1 to 2^40; the bytes may be any, and as many.
///
/// `Refused` comes where they have a fault, with the first; `FileCount` where the plan has another number of streams; `Unsafe` where it
/// has the right one and a node of it is not safe; `NoMemory` where memory was wanting; `File` never.
#[tactic(auto, using(crate::proofs::Refusing::unfit_bytes, crate::proofs::Refusing::spelled))]
pub fn spelled_ready(
    alloc: Global,
    bytes: &[u8],
    files: usize,
    options: Options,
) -> Result<Prepared, PlanStop>
    requires limit { (1 ≤ options.limit) × (options.limit ≤ 2 ^ 40) }
    ensures fresh { IfOk result (λ ready. IsNewCore ready.core) }
    ensures asked { IfOk result (IsAsked options) }
    ensures read { IfOk result (λ ready. plan_of bytes.now ≡ Some (outline_in ready.core)) }
    ensures cause { IfErr result (λ stop. BytesRefused stop (Some files) bytes.now) }
{
    let plan = plan_in(alloc, bytes)?;
    Ok(ready_for(alloc, plan, files, options)?)
}

// A core of the plan, if that has so many streams and is safe, and what its run is to write.
fn ready_for(
    alloc: Global,
    plan: Plan,
    files: usize,
    options: Options,
) -> Result<Prepared, PlanStop>
    requires limit { (1 ≤ options.limit) × (options.limit ≤ 2 ^ 40) }
    ensures fresh { IfOk result (λ ready. IsNewCore ready.core) }
    ensures safe { OnOk result (IsSafePlan plan.nodes) }
    ensures count { OnOk result (files ≡ length (streams_of plan.nodes)) }
    ensures same { IfOk result (λ ready. outline_in ready.core ≡ plan) }
    ensures asked { IfOk result (IsAsked options) }
    ensures cause { IfErr result (λ stop. PlanUnfit stop (Some files) plan) }
    ensures lines { IfErr result HasLines }
{
    let core = core_for(alloc, plan, files, options)?;
    let writing = Writing {
        form: options.form,
        check: options.check,
    };
    Ok(Prepared { core, writing })
}

fn form_for(sorted: bool) -> Form
    ensures { result ≡ form_by sorted }
{
    if sorted {
        Form::Sorted
    } else {
        Form::AsTheyCome
    }
}

// The plan of this name.
#[tactic(auto, using(crate::proofs::Refusing::file_cause, crate::proofs::Refusing::bytes_cause, crate::proofs::Refusing::stay_but, crate::proofs::Refusing::spelled_plan))]
fn read_plan_of<F: Folder>(alloc: Global, name: &[u8], folder: &mut F) -> Result<Plan, PlanStop>
    ensures told { (F.state folder.new).told ≡ (F.state folder.old).told }
    ensures contents { (F.state folder.new).contents ≡ (F.state folder.old).contents }
    ensures read { IsTrue ((F.state folder.old).told name.now) → IfOk result (λ plan. SpellsPlan ((F.state folder.old).contents name.now) plan) }
    ensures last { IsTrue ((F.state folder.old).told name.now) → OnOk result (IsReadToEnd name.now (F.state folder.old) (F.state folder.new)) }
    ensures other_last { SameElsewhere name.now (F.state folder.old).last (F.state folder.new).last }
    ensures later { NoneFalls (F.state folder.old).faults (F.state folder.new).faults }
    ensures some_opened { OpensAtMost 1 (name.now ∷ []) (F.state folder.old) (F.state folder.new) }
    ensures was_opened { OnOk result (OpensFirst 1 (name.now ∷ []) (F.state folder.old) (F.state folder.new)) }
    ensures others { StayOutside (name.now ∷ []) (F.state folder.old) (F.state folder.new) }
    ensures cause { IfErr result (λ stop. PlanCause stop None name.now (F.state folder.old) (F.state folder.new)) }
{
    let bytes = read_file(alloc, folder, name)?;
    Ok(plan_in(alloc, bytes.as_slice())?)
}

// The plan that the bytes spell.
fn plan_in(alloc: Global, bytes: &[u8]) -> Result<Plan, PlanStop>
    ensures read { IfOk result (λ plan. plan_read bytes.now ≡ Ok plan) }
    ensures cause { (files : Option ℕ) → IfErr result (λ stop. BytesRefused stop files bytes.now) }
    ensures lines { IfErr result HasLines }
{
    match read_plan(alloc, bytes) {
        Ok(plan) => Ok(plan),
        Err(ReadStop::Fault(fault)) => Err(PlanStop::Refused { fault }),
        Err(ReadStop::NoMemory) => Err(PlanStop::NoMemory),
    }
}

// A core of the plan, if that has so many streams and is safe.
fn core_for(alloc: Global, plan: Plan, files: usize, options: Options) -> Result<Core, PlanStop>
    requires limit { (1 ≤ options.limit) × (options.limit ≤ 2 ^ 40) }
    ensures fresh { IfOk result (λ core. IsNewCore core) }
    ensures safe { OnOk result (IsSafePlan plan.nodes) }
    ensures count { OnOk result (files ≡ length (streams_of plan.nodes)) }
    ensures same { IfOk result (λ core. outline_in core ≡ plan) }
    ensures trace { IfOk result (λ core. core.plan.trace ≡ options.trace) }
    ensures limit { IfOk result (λ core. core.limit ≡ options.limit) }
    ensures cause { IfErr result (λ stop. PlanUnfit stop (Some files) plan) }
    ensures lines { IfErr result HasLines }
{
    let want = stream_count(&plan);
    if want as usize != files {
        let got = file_count(files);
        return Err(PlanStop::FileCount { want, got });
    }
    match judge(alloc, &plan)? {
        Judged::Safe { certs } => Ok(run_core(alloc, plan, certs, options)?),
        Judged::Unsafe { found } => Err(PlanStop::Unsafe { found }),
    }
}

// A core of the plan with the certificates of its joins.
#[tactic(auto, using(crate::proofs::Refusing::new_core))]
fn run_core(
    alloc: Global,
    plan: Plan,
    certs: List<List<Cert>>,
    options: Options,
) -> Result<Core, NoMemory>
    requires certs { certs ≡ certificates_of plan.nodes }
    requires certified { AreCertificates plan.nodes }
    requires limit { (1 ≤ options.limit) × (options.limit ≤ 2 ^ 40) }
    ensures fresh { IfOk result (λ core. IsNewCore core) }
    ensures same { IfOk result (λ core. outline_in core ≡ plan) }
    ensures trace { IfOk result (λ core. core.plan.trace ≡ options.trace) }
    ensures limit { IfOk result (λ core. core.limit ≡ options.limit) }
{
    let _nodes = plan.nodes();
    Ok(Core::new(alloc, plan, certs, options.limit, options.trace)?)
}

// The number of the plan's streams.
#[tactic(auto, using(crate::proofs::NameLaws::few_numbers))]
fn stream_count(plan: &Plan) -> u32
    ensures { result ≡ length (streams_of plan.now.nodes) }
{
    let _nodes = plan.nodes();
    plan.streams().len() as u32
}

// The number of files, as far as 32 bits hold it.
fn file_count(files: usize) -> u32
    ensures { result ≡ counted_files files }
{
    files.min(u32::MAX as usize) as u32
}
