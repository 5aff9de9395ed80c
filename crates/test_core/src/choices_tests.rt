//! Tests of lists of choices: each kind of choice comes back as it was put there.
use actor_net::{Choice, Choices};
use std::test::Fail;

/// A choice for each way in which one is kept: to and from each of the first two nodes, where a byte has room for the other's number and where it
/// hasn't, and between two others.
const EACH: [Choice; 10] = [
    Choice { node: 0, port: 0 },
    Choice { node: 1, port: 62 },
    Choice { node: 0, port: 63 },
    Choice { node: 62, port: 0 },
    Choice { node: 2, port: 1 },
    Choice { node: 63, port: 1 },
    Choice { node: 255, port: 0 },
    Choice { node: 1, port: 255 },
    Choice { node: 3, port: 2 },
    Choice {
        node: 255,
        port: 255,
    },
];

#[test]
fn each_kind_of_choice_comes_back(rt: HostRuntime) -> Result<(), Fail> {
    let choices = Choices::from_slice(rt.alloc(), &EACH)?;
    assert_eq!(rt; choices.len(), 10);
    assert_eq!(rt; choices.to_vec(rt.alloc())?.as_slice(), &EACH[..]);
    Ok(())
}

#[test]
fn a_front_and_more_choices_are_one_list(rt: HostRuntime) -> Result<(), Fail> {
    let mut choices = Choices::from_slice(rt.alloc(), &EACH)?;
    choices.truncate(3);
    choices.append(&Choices::from_slice(rt.alloc(), &EACH[3..])?)?;
    assert_eq!(rt; choices.to_vec(rt.alloc())?.as_slice(), &EACH[..]);
    choices.truncate(0);
    assert!(rt; choices.is_empty());
    Ok(())
}
