//! The words of a command by clap: one reader for every form.
ghost use Rattle.std.specs.Prelude.{Some, None, codes, not, ◌≡◌, ◌++◌, ◌∷◌, [], true, false, List, map, IfOk, option_map, string_bytes};
ghost use Rattle.clap.specs.Facts.{explicit_source};
ghost use Rattle.clap.specs.Words.{Rule, app_of, rule_of, rows_of, found_of, is_simple_and_free};
ghost use Rattle.command_words.specs.declared.forms.Form.{Form as AnyForm};
ghost use Rattle.command_words.specs.declared.forms.Form.TheVariants.{Run as RunForm, Sim as SimForm, Fail as FailForm, Check as CheckForm, Gen as GenForm};
ghost use Rattle.command_words.specs.Arguments.{Text};
ghost use Rattle.command_words.specs.ClapArguments.{rule_by, app_with, form_app, given_in, rows_taken};
ghost use Rattle.command_words.specs.Grammar.{value_of, given_arguments, pairs_of};
ghost use Rattle.command_words.specs.Views.{Reads, given_view};

use crate::fault::ArgumentsFault;
use crate::forms::{ArgumentKind, Form};
use basics::NoMemory;
use clap::error::ErrorKind;
use clap::parser::ValueSource;
use clap::{Arg, ArgAction, ArgMatches, Command};
use std::alloc::Global;

/// What the words of a command give: a text for each name, and which flags.
#[derive(Drop)]
pub struct Given<'a> {
    matches: ArgMatches<'a>,
}

/// What the words after a command give, by the command's form.
#[tactic(auto, using(crate::proofs::GivenTexts::words_taken, crate::proofs::GivenTexts::words_refused))]
pub fn read<'a>(alloc: Global, form: Form, words: &'a [String]) -> Result<Given<'a>, ArgumentsFault>
    ensures { Reads given_view result (given_arguments form (map string_bytes words.entry.now)) }
{
    let command = command_of(alloc, form)?;
    let matches = parsed(command, words)?;
    Ok(Given { matches })
}

impl<'a> Given<'a> {
    ghost use Rattle.std.specs.Prelude.{◌≡◌, option_map, is_some};
    ghost use Rattle.command_words.specs.Grammar.{value_of};
    ghost use Rattle.command_words.specs.Views.{given_view};

    /// The text that is given for a name, if there is one.
    pub fn text(&self, name: &str) -> Option<&'a str>
        ensures { option_map (λ t. t.now) result ≡ value_of name.now (given_view self.now) }
    {
        if is_default(self.matches.value_source(name)) {
            return None;
        }
        self.matches.get_str(name)
    }

    /// Whether the flag with this name is given.
    pub fn has_flag(&self, name: &str) -> bool
        ensures { result ≡ is_some (value_of name.now (given_view self.now)) }
    {
        self.text(name).is_some()
    }
}

/// The law that clap's grammar is this crate's: at the commands as they stand, clap's definitions take exactly the words that the grammar
/// takes, and give each name the same text.
pub fn same_as_clap()
    ensures { (form : AnyForm) (words : List Text) → option_map given_in (rows_taken (form_app form) words) ≡ given_arguments form words }
{}

/// Laws of the grammar, for words with any texts in them: which names the texts are given for, and what is refused. The text of a flag is `true`.
#[tactic(auto, unfolding(crate::specs::Grammar::pairs_of, crate::specs::Grammar::read_words, std::specs::Prelude::chars))]
pub fn written_words()
    ensures sim { (f l p t : Text) → pairs_of SimForm ((codes "--instances=" ++ l) ∷ (codes "--inside=" ++ p) ∷ codes "--" ∷ f ∷ t ∷ [])
        ≡ Some ((codes "instances", l) ∷ (codes "inside", p) ∷ (codes "function", f) ∷ (codes "trace", t) ∷ []) }
    ensures options { (f l p o w s t c : Text) → pairs_of SimForm ((codes "--schedule=" ++ s) ∷ (codes "--window=" ++ w)
        ∷ (codes "--outside=" ++ o) ∷ (codes "--inside=" ++ p) ∷ (codes "--instances=" ++ l) ∷ codes "--" ∷ f ∷ t ∷ c ∷ [])
        ≡ Some ((codes "schedule", s) ∷ (codes "window", w) ∷ (codes "outside", o) ∷ (codes "inside", p) ∷ (codes "instances", l)
        ∷ (codes "function", f) ∷ (codes "trace", t) ∷ (codes "script", c) ∷ []) }
    ensures run { (f l p j t c : Text) → pairs_of RunForm ((codes "--instances=" ++ l) ∷ (codes "--inside=" ++ p)
        ∷ (codes "--journal=" ++ j) ∷ codes "--summary" ∷ codes "--" ∷ f ∷ t ∷ c ∷ [])
        ≡ Some ((codes "instances", l) ∷ (codes "inside", p) ∷ (codes "journal", j) ∷ (codes "summary", codes "true")
        ∷ (codes "function", f) ∷ (codes "trace", t) ∷ (codes "script", c) ∷ []) }
    ensures fail { (f l p j a b n t c : Text) → pairs_of FailForm ((codes "--after=" ++ n) ∷ (codes "--to=" ++ b) ∷ (codes "--failed=" ++ a)
        ∷ (codes "--journal=" ++ j) ∷ (codes "--inside=" ++ p) ∷ (codes "--instances=" ++ l) ∷ codes "--" ∷ f ∷ t ∷ c ∷ [])
        ≡ Some ((codes "after", n) ∷ (codes "to", b) ∷ (codes "failed", a) ∷ (codes "journal", j) ∷ (codes "inside", p) ∷ (codes "instances", l)
        ∷ (codes "function", f) ∷ (codes "trace", t) ∷ (codes "script", c) ∷ []) }
    ensures check { (f l s : Text) → pairs_of CheckForm ((codes "--instances=" ++ l) ∷ codes "--" ∷ f ∷ s ∷ [])
        ≡ Some ((codes "instances", l) ∷ (codes "function", f) ∷ (codes "script", s) ∷ []) }
    ensures capture { (n p h t : Text) → pairs_of GenForm ((codes "--packets=" ++ p) ∷ (codes "--hosts=" ++ h) ∷ codes "--" ∷ n ∷ t ∷ [])
        ≡ Some ((codes "packets", p) ∷ (codes "hosts", h) ∷ (codes "number", n) ∷ (codes "trace", t) ∷ []) }
    ensures missing { (f l t : Text) → pairs_of SimForm ((codes "--instances=" ++ l) ∷ codes "--" ∷ f ∷ t ∷ []) ≡ None }
    ensures hosts { (n p t : Text) → pairs_of GenForm ((codes "--packets=" ++ p) ∷ codes "--" ∷ n ∷ t ∷ []) ≡ None }
    ensures twice { (f l p t : Text)
        → pairs_of SimForm ((codes "--instances=" ++ l) ∷ (codes "--inside=" ++ p) ∷ (codes "--inside=" ++ p) ∷ codes "--" ∷ f ∷ t ∷ []) ≡ None }
    ensures valued { (f l p x t : Text)
        → pairs_of RunForm ((codes "--instances=" ++ l) ∷ (codes "--inside=" ++ p) ∷ (codes "--summary=" ++ x) ∷ codes "--" ∷ f ∷ t ∷ []) ≡ None }
    ensures again { (f l p t : Text)
        → pairs_of RunForm ((codes "--instances=" ++ l) ∷ (codes "--inside=" ++ p) ∷ codes "--summary" ∷ codes "--summary" ∷ codes "--" ∷ f ∷ t ∷ []) ≡ None }
    ensures scheduled { (f l p s t : Text)
        → pairs_of RunForm ((codes "--instances=" ++ l) ∷ (codes "--inside=" ++ p) ∷ (codes "--schedule=" ++ s) ∷ codes "--" ∷ f ∷ t ∷ []) ≡ None }
    ensures counted { (f l p j a b n t : Text) → pairs_of FailForm ((codes "--after=" ++ n) ∷ (codes "--to=" ++ b) ∷ (codes "--failed=" ++ a)
        ∷ (codes "--journal=" ++ j) ∷ (codes "--inside=" ++ p) ∷ (codes "--instances=" ++ l) ∷ codes "--summary" ∷ codes "--" ∷ f ∷ t ∷ []) ≡ None }
    ensures untold { (f l p a b n t : Text) → pairs_of FailForm ((codes "--after=" ++ n) ∷ (codes "--to=" ++ b) ∷ (codes "--failed=" ++ a)
        ∷ (codes "--inside=" ++ p) ∷ (codes "--instances=" ++ l) ∷ codes "--" ∷ f ∷ t ∷ []) ≡ None }
    ensures stray { (f l s more : Text) → pairs_of CheckForm ((codes "--instances=" ++ l) ∷ codes "--" ∷ f ∷ s ∷ more ∷ []) ≡ None }
    ensures unknown { (f l s : Text) → pairs_of CheckForm ((codes "--instances=" ++ l) ∷ codes "--summary" ∷ codes "--" ∷ f ∷ s ∷ []) ≡ None }
    ensures help { (f l s : Text) → pairs_of CheckForm ((codes "--instances=" ++ l) ∷ codes "--help" ∷ codes "--" ∷ f ∷ s ∷ []) ≡ None }
{}

/// Whether what was found is a default, and not of the words.
fn is_default(source: Option<ValueSource>) -> bool
    ensures { result ≡ not (explicit_source source) }
{
    matches!(source, Some(ValueSource::DefaultValue))
}

/// The command with the arguments of a form.
fn command_of<'a>(alloc: Global, form: Form) -> Result<Command<'a>, NoMemory>
    ensures app { IfOk result (λ c. app_of c ≡ form_app form) }
    ensures simple { IfOk result (λ c. is_simple_and_free (app_of c) ≡ true) }
{
    let arguments = form.arguments();
    let mut command = bare(alloc);
    for (kind, name) in arguments {
        command = with(alloc, command, *kind, name)?;
    }
    Ok(command)
}

/// A command without arguments and without help.
fn bare<'a>(alloc: Global) -> Command<'a>
    ensures { app_of result ≡ app_with [] }
{
    Command::new(alloc, "opennf")
        .no_binary_name(true)
        .disable_help_flag(true)
}

/// The command with an argument more.
#[tactic(auto, unfolding(crate::specs::ClapArguments::app_with))]
fn with<'a>(
    alloc: Global,
    command: Command<'a>,
    kind: ArgumentKind,
    name: &'a str,
) -> Result<Command<'a>, NoMemory>
    ensures { IfOk result (λ c. (rules : List Rule) → app_of command.entry ≡ app_with rules
        → app_of c ≡ app_with (rules ++ rule_by kind name.entry.now ∷ [])) }
{
    command.arg(argument(alloc, kind, name))
}

/// An argument of this kind.
fn argument<'a>(alloc: Global, kind: ArgumentKind, name: &'a str) -> Arg<'a>
    ensures rule { rule_of result ≡ rule_by kind name.entry.now }
    ensures local { result.global ≡ false }
{
    let place = Arg::new(alloc, name);
    match kind {
        ArgumentKind::Positional => place.required(true),
        ArgumentKind::OptionalPositional => place,
        ArgumentKind::Required => place.long(name).required(true),
        ArgumentKind::Optional => place.long(name),
        ArgumentKind::Flag => place.long(name).action(ArgAction::SetTrue),
    }
}

/// What the words of a command give, as clap says it.
fn parsed<'a>(command: Command<'a>, words: &'a [String]) -> Result<ArgMatches<'a>, ArgumentsFault>
    requires { is_simple_and_free (app_of command) ≡ true }
    ensures { Reads (λ m. rows_of (found_of m)) result (rows_taken (app_of command.entry) (map string_bytes words.entry.now)) }
{
    match command.try_get_matches_from(words) {
        Ok(matches) => Ok(matches),
        Err(error) => match error.kind() {
            ErrorKind::OutOfMemory => Err(ArgumentsFault::NoMemory),
            _ => Err(ArgumentsFault::Usage),
        },
    }
}
