ghost use Rattle.std.specs.Prelude.{◌≡◌, ◌≤◌, [], ◌∷◌, true, length, map, All, IfOk, IsErrOf, MatchOption};
ghost use Rattle.std.specs.List.{list_all};
ghost use Rattle.std.specs.String.{string_bytes};
ghost use Rattle.text_edits.specs.Files.{plain_files};
ghost use Rattle.c_names.specs.Names.{is_new_name};
ghost use Rattle.core_meaning.specs.Plain.{plain_program};
ghost use Rattle.core_meaning.specs.Run as meaning;
ghost use Rattle.variant_interp.specs.Answers.{plain_answer};
ghost use Rattle.project_file.specs.View.{project_view};
ghost use Rattle.project_store.specs.Faults.{HasCause};
ghost use Rattle.project_store.specs.States.{IsReadAlone};
ghost use Rattle.project_store.specs.Reads.{names_of};
ghost use Rattle.command_promises.specs.Sayings.{saying, SaysOrEnds, CameTo};
ghost use Rattle.command_promises.specs.Commands.{CourseFor};
ghost use Rattle.command_projects.specs.Products.{are_features};
ghost use Rattle.command_projects.specs.Projects.{WithFiles};
ghost use Rattle.command_run.specs.Run as spec;
ghost use Rattle.command_run.specs.Steps.{run_of, puts_out, Refuses, IsConfiguration};

use crate::words::{RunWords, asked_run};
use command_projects::{are_features, configuration, without_project};
use command_promises::{Said, Stop, usage};
use cond_formula::Config;
use core_meaning::CoreProgram;
use project_program::{ProgramError, Stage, program};
use project_store::{Project, Store, read_file, read_files, read_project};
use std::alloc::{AllocError, Global};
use text_edits::Files;
use variant_interp::RunAnswer;

/// The stage refuses the configuration.
fn not_accepted(alloc: Global, stage: Stage) -> Result<Said, AllocError>
    ensures { IfOk result (λ said. saying said ≡ spec.not_accepted stage) }
{
    let stage = stage.name();
    let text = format!(in alloc; "not accepted {stage}\n")?;
    let said = Said::tells(alloc, 9, text.as_str())?;
    Ok(said)
}

/// What a run put out, and on a line of its own how it went on.
fn put_out(alloc: Global, status: u8, output: &[u8], how: &str) -> Result<Said, AllocError>
    ensures { IfOk result (λ said. saying said ≡ puts_out status output.now how.now) }
{
    let mut text = Vec::from_slice(alloc, output)?;
    text.push(b'\n')?;
    text.extend_from_slice(how.as_bytes())?;
    text.push(b'\n')?;
    Ok(Said::of_bytes(alloc, status, text))
}

/// What a run put out, and the status with which it ended.
fn ended(alloc: Global, output: &[u8], status: i32) -> Result<Said, AllocError>
    ensures { IfOk result (λ said. saying said ≡ spec.answers (meaning.Ended output.now status)) }
{
    let how = format!(in alloc; "ended {status}")?;
    let said = put_out(alloc, 0, output, how.as_str())?;
    Ok(said)
}

/// What is said of a run.
fn of_answer(alloc: Global, answer: RunAnswer) -> Result<Said, AllocError>
    ensures { IfOk result (λ said. saying said ≡ spec.answers (plain_answer answer)) }
{
    match answer {
        RunAnswer::Ended(output, status) => {
            let said = ended(alloc, &output, status)?;
            Ok(said)
        }
        RunAnswer::Undefined(output) => {
            let said = put_out(alloc, 10, &output, "undefined")?;
            Ok(said)
        }
        RunAnswer::Running(output) => {
            let said = put_out(alloc, 11, &output, "running")?;
            Ok(said)
        }
    }
}

/// What is said of the run of a program.
fn of_program(
    alloc: Global,
    program: &CoreProgram,
    input: &[u8],
    bound: u32,
) -> Result<Said, AllocError>
    ensures { IfOk result (λ said. saying said ≡ spec.answers (meaning.run (plain_program program.now) input.now bound)) }
{
    let answer = variant_interp::run(alloc, program, input, bound)?;
    let said = of_answer(alloc, answer)?;
    Ok(said)
}

/// Where a configuration has no program, why.
fn without_program(alloc: Global, error: ProgramError) -> Result<Said, Stop>
    ensures { Refuses error result }
{
    match error {
        ProgramError::NotAccepted(stage) => {
            let said = not_accepted(alloc, stage)?;
            Ok(said)
        }
        ProgramError::Memory => Err(Stop::WantOfMemory),
    }
}

/// What is said of the product whose files and input are read.
fn of_product(
    alloc: Global,
    query: &RunWords,
    project: &Project,
    files: &Files,
    input: &[u8],
    c: Config,
) -> Result<Said, Stop>
    requires chosen { IsConfiguration (run_of query.now) (project_view project.now) c }
    requires named { map (λ f. f.name) (plain_files files.now) ≡ names_of (project_view project.now) }
    requires short { All (λ f. length f.bytes ≤ 4294967295) (plain_files files.now) }
    ensures { SaysOrEnds (spec.OfProduct (run_of query.now) (project_view project.now) (plain_files files.now) input.now) result }
{
    // Numbers of files have 32 bits, of which the built-in one is the last.
    if files.list.len() >= u32::MAX as usize {
        return Err(Stop::WantOfMemory);
    }
    match program(alloc, project, files, c) {
        Ok(program) => {
            let said = of_program(alloc, &program, input, query.bound)?;
            Ok(said)
        }
        Err(error) => without_program(alloc, error),
    }
}

/// The same, where the project admits the configuration.
fn of_configuration(
    alloc: Global,
    query: &RunWords,
    project: &Project,
    files: &Files,
    input: &[u8],
    c: Config,
) -> Result<Said, Stop>
    requires chosen { IsConfiguration (run_of query.now) (project_view project.now) c }
    requires named { map (λ f. f.name) (plain_files files.now) ≡ names_of (project_view project.now) }
    requires short { All (λ f. length f.bytes ≤ 4294967295) (plain_files files.now) }
    ensures { SaysOrEnds (spec.OfConfiguration (run_of query.now) (project_view project.now) (plain_files files.now) input.now) result }
{
    if !project.model.admits(c) {
        let said = Said::tells(alloc, 9, "not admitted\n")?;
        return Ok(said);
    }
    of_product(alloc, query, project, files, input, c)
}

/// Reads the input from the file of the name, and says what there is to say.
fn with_input_file<S: Store>(
    alloc: Global,
    query: &RunWords,
    project: &Project,
    files: &Files,
    name: &str,
    c: Config,
    store: &mut S,
) -> Result<Said, Stop>
    requires chosen { IsConfiguration (run_of query.now) (project_view project.now) c }
    requires named { map (λ f. f.name) (plain_files files.now) ≡ names_of (project_view project.now) }
    requires short { All (λ f. length f.bytes ≤ 4294967295) (plain_files files.now) }
    ensures came { CameTo (WithFiles (name.now ∷ []) (spec.OfInputs (run_of query.now) (project_view project.now) (plain_files files.now))) (S.state store.old) result }
    ensures cause { HasCause (S.state store.old).exact (S.state store.old).read_faults (S.state store.new).read_faults (IsErrOf result Stop.ReadFault) }
    ensures kept { IsReadAlone (S.state store.old) (S.state store.new) }
{
    match read_file(alloc, store, name) {
        Ok(file) => of_configuration(alloc, query, project, files, file.bytes.as_slice(), c),
        Err(error) => without_project(alloc, error),
    }
}

/// Reads the input, if there is one, and says what there is to say.
fn with_input<S: Store>(
    alloc: Global,
    query: &RunWords,
    project: &Project,
    files: &Files,
    c: Config,
    store: &mut S,
) -> Result<Said, Stop>
    requires chosen { IsConfiguration (run_of query.now) (project_view project.now) c }
    requires named { map (λ f. f.name) (plain_files files.now) ≡ names_of (project_view project.now) }
    requires short { All (λ f. length f.bytes ≤ 4294967295) (plain_files files.now) }
    ensures came { CameTo (WithFiles (spec.input_names (run_of query.now).input) (spec.OfInputs (run_of query.now) (project_view project.now) (plain_files files.now))) (S.state store.old) result }
    ensures cause { HasCause (S.state store.old).exact (S.state store.old).read_faults (S.state store.new).read_faults (IsErrOf result Stop.ReadFault) }
    ensures kept { IsReadAlone (S.state store.old) (S.state store.new) }
{
    match query.input {
        Some(name) => with_input_file(alloc, query, project, files, name, c, store),
        None => of_configuration(alloc, query, project, files, b"", c),
    }
}

/// Reads the project's files and the input, and says what there is to say.
fn with_files<S: Store>(
    alloc: Global,
    query: &RunWords,
    project: &Project,
    c: Config,
    store: &mut S,
) -> Result<Said, Stop>
    requires chosen { IsConfiguration (run_of query.now) (project_view project.now) c }
    ensures came { CameTo (spec.OfFiles (run_of query.now) (project_view project.now)) (S.state store.old) result }
    ensures cause { HasCause (S.state store.old).exact (S.state store.old).read_faults (S.state store.new).read_faults (IsErrOf result Stop.ReadFault) }
    ensures kept { IsReadAlone (S.state store.old) (S.state store.new) }
{
    match read_files(alloc, store, project) {
        Ok(files) => with_input(alloc, query, project, &files, c, store),
        Err(error) => without_project(alloc, error),
    }
}

/// The configuration, if the project has all the features.
fn chosen(alloc: Global, query: &RunWords, project: &Project) -> Result<Option<Config>, AllocError>
    requires few { length project.now.features.items ≤ 128 }
    requires lawful { list_all is_new_name (run_of query.now).names ≡ true }
    ensures { IfOk result (λ c. MatchOption c
        (are_features (project_view project.now).features (run_of query.now).names ≡ true → ⊥)
        (IsConfiguration (run_of query.now) (project_view project.now))) }
{
    if !are_features(&project.features, &query.names) {
        return Ok(None);
    }
    let c = configuration(alloc, &project.features, &query.names)?;
    Ok(Some(c))
}

/// Says what there is to say of a product of the project.
fn in_project<S: Store>(
    alloc: Global,
    query: &RunWords,
    project: &Project,
    store: &mut S,
) -> Result<Said, Stop>
    requires few { length project.now.features.items ≤ 128 }
    requires lawful { list_all is_new_name (run_of query.now).names ≡ true }
    ensures came { CameTo (spec.OfProject (run_of query.now) (project_view project.now)) (S.state store.old) result }
    ensures cause { HasCause (S.state store.old).exact (S.state store.old).read_faults (S.state store.new).read_faults (IsErrOf result Stop.ReadFault) }
    ensures kept { IsReadAlone (S.state store.old) (S.state store.new) }
{
    match chosen(alloc, query, project)? {
        Some(c) => with_files(alloc, query, project, c, store),
        None => {
            let said = usage(alloc)?;
            Ok(said)
        }
    }
}

/// Reads the project, its files and the input, and says the run of the product, or why there is none.
fn of_query<S: Store>(alloc: Global, query: &RunWords, store: &mut S) -> Result<Said, Stop>
    requires lawful { list_all is_new_name (run_of query.now).names ≡ true }
    ensures came { CameTo (spec.Does (run_of query.now)) (S.state store.old) result }
    ensures cause { HasCause (S.state store.old).exact (S.state store.old).read_faults (S.state store.new).read_faults (IsErrOf result Stop.ReadFault) }
    ensures kept { IsReadAlone (S.state store.old) (S.state store.new) }
{
    match read_project(alloc, store, query.project) {
        Ok(project) => in_project(alloc, query, &project, store),
        Err(error) => without_project(alloc, error),
    }
}

/// Carries out `run` with its further words: reads the project, its files and the input, and says the run of the product.
pub fn run<S: Store>(alloc: Global, words: &[String], store: &mut S) -> Result<Said, Stop>
    ensures came { CameTo (CourseFor spec.run (map string_bytes words.now)) (S.state store.old) result }
    ensures cause { HasCause (S.state store.old).exact (S.state store.old).read_faults (S.state store.new).read_faults (IsErrOf result Stop.ReadFault) }
    ensures kept { IsReadAlone (S.state store.old) (S.state store.new) }
{
    match asked_run(alloc, words)? {
        Some(query) => of_query(alloc, &query, store),
        None => {
            let said = usage(alloc)?;
            Ok(said)
        }
    }
}
