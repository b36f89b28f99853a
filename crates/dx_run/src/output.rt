ghost use Rattle.std.specs.Prelude.{◌≡◌, ◌≤◌, ◌^◌, length, IfOk, None, Some, string_bytes};
ghost use Rattle.dx_base.specs.WordBytes.{bytes_of_words};
ghost use Rattle.dx_run.specs.Answers.{rule_name, word_rule_name, limit_name, refused_line, refused_word_line, limit_line, translated_line, checked_line};
ghost use Rattle.dx_run.specs.Outputs.{IsOutput, IsListing, IsReport, IsFaultOutput};

use crate::status::Status;
use dx_base::{Bytes, Fault, List, Rule, Which, Words, bytes_of};
use dx_show::show;
use dx_translate::translate;
use spirv_file::check_file;
use spv_form::{CheckFault, Version, WordRule};
use std::alloc::{AllocError, Global};

/// All that a command has made before it writes and says.
#[derive(Debug, Drop)]
pub struct Output {
    /// The status where neither the write nor the saying fails.
    pub status: Status,
    /// The bytes of the file that is written, if there is one.
    pub bytes: Option<Bytes>,
    /// The text that is said.
    pub text: Bytes,
}

/// The bytes of a text.
fn bytes_of_text(alloc: Global, text: &str) -> Result<Bytes, AllocError>
    ensures { IfOk result (λ bytes. bytes ≡ text.now) }
{
    let mut bytes: Bytes = List::new(alloc);
    for byte in text.as_bytes() {
        bytes.push(*byte).map_err(|_| AllocError)?;
    }
    Ok(bytes)
}

/// The rule's letter and number.
fn named_rule(alloc: Global, rule: Rule) -> Result<String, AllocError>
    ensures { IfOk result (λ text. string_bytes text ≡ rule_name rule) }
{
    match rule {
        Rule::C(n) => format!(in alloc; "C{n}"),
        Rule::B(n) => format!(in alloc; "B{n}"),
        Rule::Y(n) => format!(in alloc; "Y{n}"),
        Rule::M(n) => format!(in alloc; "M{n}"),
        Rule::N(n) => format!(in alloc; "N{n}"),
        Rule::P(n) => format!(in alloc; "P{n}"),
    }
}

/// The letter and number of a rule of words.
fn named_word_rule(alloc: Global, rule: WordRule) -> Result<String, AllocError>
    ensures { IfOk result (λ text. string_bytes text ≡ word_rule_name rule) }
{
    match rule {
        WordRule::W(n) => format!(in alloc; "W{n}"),
        WordRule::V(n) => format!(in alloc; "V{n}"),
        WordRule::S(n) => format!(in alloc; "S{n}"),
    }
}

/// The name of what a limit counts.
fn named_limit(which: Which) -> &'static str
    ensures { result.now ≡ limit_name which }
{
    match which {
        Which::File => "file",
        Which::Records => "records",
        Which::Fields => "fields",
        Which::Blocks => "blocks",
        Which::Instructions => "instructions",
        Which::Cases => "cases",
        Which::PhiEntries => "phi-entries",
        Which::Resources => "resources",
    }
}

/// The output for a file that breaks a rule.
fn refusal(alloc: Global, rule: Rule, bit: u64) -> Result<Output, AllocError>
    ensures status { IfOk result (λ output. output.status ≡ Status.Refused) }
    ensures bytes { IfOk result (λ output. output.bytes ≡ None) }
    ensures text { IfOk result (λ output. output.text ≡ refused_line (rule_name rule) bit) }
{
    let name = named_rule(alloc, rule)?;
    let line = format!(in alloc; "refused {name} bit {bit}\n")?;
    let text = bytes_of_text(alloc, line.as_str())?;
    Ok(Output {
        status: Status::Refused,
        bytes: None,
        text,
    })
}

/// The output for a file that passes a limit.
fn limit(alloc: Global, which: Which, bit: u64) -> Result<Output, AllocError>
    ensures status { IfOk result (λ output. output.status ≡ Status.Limit) }
    ensures bytes { IfOk result (λ output. output.bytes ≡ None) }
    ensures text { IfOk result (λ output. output.text ≡ limit_line (limit_name which) bit) }
{
    let name = named_limit(which);
    let line = format!(in alloc; "limit {name} bit {bit}\n")?;
    let text = bytes_of_text(alloc, line.as_str())?;
    Ok(Output {
        status: Status::Limit,
        bytes: None,
        text,
    })
}

/// The output for a file that is translated into these words.
fn success(alloc: Global, words: &Words) -> Result<Output, AllocError>
    ensures status { IfOk result (λ output. output.status ≡ Status.Done) }
    ensures bytes { IfOk result (λ output. output.bytes ≡ Some (bytes_of_words words.now)) }
    ensures text { IfOk result (λ output. output.text ≡ translated_line (length words.now)) }
{
    let Ok(bytes) = bytes_of(alloc, words) else {
        return Err(AllocError);
    };
    let count = words.len();
    let line = format!(in alloc; "translated {count} words\n")?;
    let text = bytes_of_text(alloc, line.as_str())?;
    Ok(Output {
        status: Status::Done,
        bytes: Some(bytes),
        text,
    })
}

/// The output for a file of words that breaks a rule.
fn word_refusal(alloc: Global, rule: WordRule, word: u32) -> Result<Output, AllocError>
    ensures status { IfOk result (λ output. output.status ≡ Status.Refused) }
    ensures bytes { IfOk result (λ output. output.bytes ≡ None) }
    ensures text { IfOk result (λ output. output.text ≡ refused_word_line (word_rule_name rule) word) }
{
    let name = named_word_rule(alloc, rule)?;
    let line = format!(in alloc; "refused {name} word {word}\n")?;
    let text = bytes_of_text(alloc, line.as_str())?;
    Ok(Output {
        status: Status::Refused,
        bytes: None,
        text,
    })
}

/// The output for so many words that are accepted.
fn accepted(alloc: Global, count: usize) -> Result<Output, AllocError>
    ensures status { IfOk result (λ output. output.status ≡ Status.Done) }
    ensures bytes { IfOk result (λ output. output.bytes ≡ None) }
    ensures text { IfOk result (λ output. output.text ≡ checked_line count) }
{
    let line = format!(in alloc; "checked {count} words\n")?;
    let text = bytes_of_text(alloc, line.as_str())?;
    Ok(Output {
        status: Status::Done,
        bytes: None,
        text,
    })
}

/// The output for a file that breaks a rule or passes a limit.
fn fault_output(alloc: Global, fault: Fault) -> Result<Output, AllocError>
    ensures { IfOk result (λ output. IsFaultOutput fault output) }
{
    match fault {
        Fault::Refused { rule, bit } => refusal(alloc, rule, bit),
        Fault::Limit { which, bit } => limit(alloc, which, bit),
        Fault::OutOfMemory => Err(AllocError),
    }
}

/// All that a translation to this version writes and says for a file of these bytes, at most 2^26.
pub fn output_for(alloc: Global, bytes: &[u8], version: Version) -> Result<Output, AllocError>
    requires { length bytes.now ≤ 2 ^ 26 }
    ensures { IfOk result (λ output. IsOutput version bytes.now output) }
{
    match translate(alloc, bytes, version) {
        Ok(words) => success(alloc, &words),
        Err(fault) => fault_output(alloc, fault),
    }
}

/// All that `show` says for a file of these bytes, at most 2^26.
pub fn listing_for(alloc: Global, bytes: &[u8]) -> Result<Output, AllocError>
    requires { length bytes.now ≤ 2 ^ 26 }
    ensures { IfOk result (λ output. IsListing bytes.now output) }
{
    match show(alloc, bytes) {
        Ok(text) => Ok(Output {
            status: Status::Done,
            bytes: None,
            text,
        }),
        Err(fault) => fault_output(alloc, fault),
    }
}

/// All that `check` says for a file of these bytes, at most 2^26.
pub fn report_for(alloc: Global, bytes: Bytes) -> Result<Output, AllocError>
    requires { length bytes ≤ 2 ^ 26 }
    ensures { IfOk result (λ output. IsReport bytes output) }
{
    let count = bytes.len() / 4;
    match check_file(alloc, bytes) {
        Ok(()) => accepted(alloc, count),
        Err(CheckFault::Refused { rule, word }) => word_refusal(alloc, rule, word),
        Err(CheckFault::OutOfMemory) => Err(AllocError),
    }
}
