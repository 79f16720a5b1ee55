//! Runs tests one by one and reports their results.
ghost use Rattle.std.specs.Prelude.{◌≡◌, ◌<◌, All, IfOk, OnOk, string_bytes};
ghost use Rattle.unl_dependencies.specs.Evaluation.{off};
ghost use Rattle.unl_documents.specs.States.{IsValidState};
ghost use Rattle.unl_spec_runner.specs.Report.{evaluated, fail_line, given, line_of, pass_line, quoted, report_of_files};
ghost use Rattle.unl_spec_runner.specs.Steps.{with_case, with_file, with_files, with_tests};
ghost use Rattle.unl_spec_runner.specs.TestFile.{IsValidFile};

use crate::document::{Test, TestFile};
use crate::expected::Expected;
use crate::report::Report;
use serde_json::Value;
use std::alloc::{AllocError, Global};
use unl_base::Draw;
use unl_dependencies::{Evaluation, VariantAnswer, evaluate};
use unl_documents::{Memory, State, Text};
use unl_strategies::Moment;

/// Runs the tests of all files and returns the report, with the counts at its end. The only error is out of memory.
#[tactic(auto, using(crate::proofs::Counting::all_counted))]
pub fn report_files(alloc: Global, files: &[TestFile], draw: &Draw) -> Result<Report, Memory>
    requires { All IsValidFile files.now }
    ensures { IfOk result (λ r. r ≡ report_of_files draw.entry.now files.now) }
{
    let mut report = Report::new(alloc);
    run_files(alloc, &mut report, files, draw)?;
    report.add_counts(alloc)?;
    Ok(report)
}

/// Runs the tests of each file, in the order of the files, and adds their results to the report.
#[tactic(auto, unfolding(crate::specs::Steps::with_files))]
fn run_files(
    alloc: Global,
    report: &mut Report,
    files: &[TestFile],
    draw: &Draw,
) -> Result<(), Memory>
    requires { All IsValidFile files.now }
    ensures { OnOk result (report.new ≡ with_files draw.entry.now files.now report.old) }
{
    for file in files {
        run_file(alloc, report, file, draw)?;
    }
    Ok(())
}

/// Runs the feature tests of a file, then its variant tests.
#[tactic(auto, unfolding(crate::specs::Steps::with_file))]
fn run_file(alloc: Global, report: &mut Report, file: &TestFile, draw: &Draw) -> Result<(), Memory>
    requires { IsValidFile file.now }
    ensures { OnOk result (report.new ≡ with_file draw.entry.now file.now report.old) }
{
    run_tests(alloc, report, &file.state, file.tests.as_slice(), draw)?;
    run_tests(
        alloc,
        report,
        &file.state,
        file.variant_tests.as_slice(),
        draw,
    )
}

/// Runs tests of one file, in order, with the file's state.
#[tactic(auto, unfolding(crate::specs::Steps::with_tests))]
fn run_tests(
    alloc: Global,
    report: &mut Report,
    state: &State,
    tests: &[Test],
    draw: &Draw,
) -> Result<(), Memory>
    requires { IsValidState state.now }
    ensures { OnOk result (report.new ≡ with_tests draw.entry.now state.now tests.now report.old) }
{
    for test in tests {
        run_test(alloc, report, state, test, draw)?;
    }
    Ok(())
}

/// Evaluates the feature of a test, appends the test's line to the report, and counts the test as passed or failed.
#[tactic(auto, unfolding(crate::specs::Steps::with_case, crate::specs::Report::passes))]
fn run_test(
    alloc: Global,
    report: &mut Report,
    state: &State,
    test: &Test,
    draw: &Draw,
) -> Result<(), Memory>
    requires { IsValidState state.now }
    ensures { OnOk result (report.new ≡ with_case draw.entry.now (record { state = state.now; test = test.now }) report.old) }
{
    let given = given(alloc, state, test, draw)?;
    let line = line_of(alloc, report.next_number(), test, &given)?;
    report.add_line(line.as_bytes(), test.expected.agrees(&given))
}

/// Returns the actual result of a test, in the form of the expected one: whether the feature is on, or its variant.
#[tactic(auto, unfolding(crate::specs::Report::given))]
fn given(alloc: Global, state: &State, test: &Test, draw: &Draw) -> Result<Expected, Memory>
    requires { IsValidState state.now }
    ensures { IfOk result (λ g. g ≡ given draw.entry.now (record { state = state.now; test = test.now })) }
{
    let evaluation = evaluated(alloc, state, test, draw)?;
    test.expected.given_as(alloc, &evaluation)
}

/// Evaluates the feature that a test names. A feature that the state lacks is off.
#[tactic(auto, unfolding(crate::specs::Report::evaluated))]
fn evaluated(alloc: Global, state: &State, test: &Test, draw: &Draw) -> Result<Evaluation, Memory>
    requires { IsValidState state.now }
    ensures { IfOk result (λ e. e ≡ evaluated draw.entry.now (record { state = state.now; test = test.now })) }
{
    let moment = Moment {
        now: draw.now,
        word: draw.word,
        host: "",
    };
    match evaluate(alloc, state, test.toggle.as_str(), &test.context, &moment)? {
        Some(evaluation) => Ok(evaluation),
        None => off(alloc),
    }
}

/// Returns the evaluation of a feature that is off. It has the variant `disabled`, which means that there is no
/// variant.
fn off(alloc: Global) -> Result<Evaluation, Memory>
    ensures { IfOk result (λ e. e ≡ off) }
{
    Ok(Evaluation {
        on: false,
        variant: VariantAnswer {
            name: Text::new(alloc, "disabled")?,
            enabled: false,
            payload: None,
        },
    })
}

/// Returns the line of a test: `pass` or `fail`, the test's number, and its description as a JSON string. The line of a
/// failed test also has the expected and the actual result.
#[tactic(auto, unfolding(crate::specs::Report::line_of))]
fn line_of(alloc: Global, number: u64, test: &Test, given: &Expected) -> Result<String, Memory>
    ensures line { IfOk result (λ s. string_bytes s ≡ line_of number test.now given.now) }
{
    let description = quoted(alloc, &test.description)?;
    if test.expected.agrees(given) {
        return Ok(pass_line(alloc, number, description.as_str())?);
    }
    let expected = test.expected.text(alloc)?;
    let given = given.text(alloc)?;
    Ok(fail_line(
        alloc,
        number,
        description.as_str(),
        expected.as_str(),
        given.as_str(),
    )?)
}

/// Returns the JSON text of a string, in quotes.
fn quoted(alloc: Global, text: &Text) -> Result<String, Memory>
    ensures { IfOk result (λ s. string_bytes s ≡ quoted text.now) }
{
    let text = String::from_str(alloc, text.as_str())?;
    Ok(Value::String(text).to_string(alloc)?)
}

/// Returns the line of a test that passed.
#[tactic(auto, unfolding(crate::specs::Report::pass_line))]
fn pass_line(alloc: Global, number: u64, description: &str) -> Result<String, AllocError>
    ensures { IfOk result (λ s. string_bytes s ≡ pass_line number description.now) }
{
    format!(in alloc; "pass {number} {description}\n")
}

/// Returns the line of a test that failed, with the expected and the actual result.
#[tactic(auto, unfolding(crate::specs::Report::fail_line))]
fn fail_line(
    alloc: Global,
    number: u64,
    description: &str,
    expected: &str,
    given: &str,
) -> Result<String, AllocError>
    ensures { IfOk result (λ s. string_bytes s ≡ fail_line number description.now expected.now given.now) }
{
    format!(in alloc; "fail {number} {description} expected {expected} given {given}\n")
}
