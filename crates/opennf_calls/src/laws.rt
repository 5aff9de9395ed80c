//! Laws of what the calls promise.
ghost use Rattle.opennf_calls.specs.Calls.{OutcomeLaw, SimLaw};

/// The law: the report of each `sim`, `run` and `audit` that ends well has its headline.
pub fn outcome_is_headline()
    ensures { OutcomeLaw }
{}

/// The law: two calls of `sim` with the same words and bytes, if both end well, make the same choices and write the same texts.
pub fn simulates_again()
    ensures { SimLaw }
{}
