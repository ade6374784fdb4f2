//! What the command line means.
use crate::{Job, words};
use std::test::Fail;
use vme_model::Version;

#[test]
fn no_words_are_joined(rt: HostRuntime) -> Result<(), Fail> {
    assert!(rt; words(rt.alloc(), &[])? == Job::Joined);
    Ok(())
}

#[test]
fn reads_two_files(rt: HostRuntime) -> Result<(), Fail> {
    let alloc = rt.alloc();
    let (scenario, trace) = ("board.toml", "tenure.vme");
    assert!(rt; words(alloc, &["replay", scenario, trace])? == Job::Replay { scenario, trace });
    assert!(rt; words(alloc, &["check", scenario, trace])? == Job::Check { scenario, trace });
    Ok(())
}

#[test]
fn reads_what_to_drive(rt: HostRuntime) -> Result<(), Fail> {
    let alloc = rt.alloc();
    let cases: [(&[&str], u32, Version); 5] = [
        (&["drive", "S", "--edges", "8"], 8, Version::One),
        (&["drive", "--edges=1", "S"], 1, Version::One),
        (&["drive", "S", "--edges", "1048576"], 1048576, Version::One),
        (
            &["drive", "S", "--edges", "8", "--version", "1"],
            8,
            Version::One,
        ),
        (
            &["drive", "S", "--version=2", "--edges", "8"],
            8,
            Version::Two,
        ),
    ];
    for (given, edges, version) in cases {
        let scenario = "S";
        let wanted = Job::Drive {
            scenario,
            edges,
            version,
        };
        assert!(rt; words(alloc, given)? == wanted);
    }
    Ok(())
}

#[test]
fn refuses_other_words(rt: HostRuntime) -> Result<(), Fail> {
    let cases: [&[&str]; 16] = [
        &["drive", "S", "--edges", "0"],
        &["drive", "S", "--edges", "1048577"],
        &["drive", "S", "--edges", "x"],
        &["drive", "S", "--edges"],
        &["drive", "S"],
        &["drive", "--edges", "8"],
        &["drive", "S", "--edges", "8", "--version", "3"],
        &["drive", "S", "--edges", "8", "--version", "0"],
        &["replay", "S"],
        &["replay"],
        &["check", "S", "T", "U"],
        &["walk", "S"],
        &[""],
        &["replay", "S", "T", "--edges", "8"],
        &["--help"],
        &["drive", "--help"],
    ];
    for case in cases {
        assert!(rt; words(rt.alloc(), case).is_err(), "{case:?}");
    }
    Ok(())
}

#[test]
fn help_names_each_command(rt: HostRuntime) -> Result<(), Fail> {
    match words(rt.alloc(), &["--help"]) {
        Ok(_) => assert!(rt; false, "taken"),
        Err(error) => {
            let text = format!(in rt.alloc(); "{error}")?;
            for part in ["vmebus", "replay", "check", "drive", "Exit status"] {
                assert!(rt; text.as_str().contains(part), "{part}");
            }
        }
    }
    Ok(())
}
