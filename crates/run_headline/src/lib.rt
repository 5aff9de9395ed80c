//! What the lines of the reports say: the theorem of this project in words that name no part of the network.
//!
//! Contracts see the lines as lists, a capture as the list of its packets and a script as the list of its commands. The main promise is
//! `Headline` of `specs/Headline.antt`, which [`reports_have_headlines`] gives of every completed run. Strong sharing and two-phase updates have
//! headlines of their own, in the same words. The crate does nothing when it runs.
#![tactic(auto)]

ghost use Rattle.run_headline.specs.FailoverLaw.{FailoverLaw};
ghost use Rattle.run_headline.specs.Law.{HeadlineLaw, TwoRunsLaw};
ghost use Rattle.run_headline.specs.PublishedLaw.{PublishedLaw};
ghost use Rattle.run_headline.specs.StrongLaw.{StrongLaw};

use nf_function::Function;
pub use run_report::{AuditFault, Head, audit, report, simulate};
pub use standby_failover::{Failing, packets_of, promote_with, report_failover};

/// The law: the report of each completed run has the lines of the headline.
pub fn reports_have_headlines<F: Function>()
    ensures { HeadlineLaw F.row.Denot F.semantics }
{}

/// The law: two runs over one capture say the same of each unit that no completed plain move covered.
pub fn two_runs_say_the_same<F: Function>()
    ensures { TwoRunsLaw F.Record }
{}

/// The law: the report of each completed run of strong sharing has the lines of its headline.
pub fn strong_reports_have_headlines<F: Function>()
    ensures { StrongLaw F.row.Denot F.semantics }
{}

/// The law: the report of each completed update has the lines of its headline.
pub fn published_reports_have_headlines<F: Function>()
    ensures { PublishedLaw F.row.Denot F.semantics }
{}

/// The law: the report of each failover has the lines of its headline.
pub fn failover_reports_have_headlines<F: Function>()
    ensures { FailoverLaw F.row.Denot F.Record }
{}
