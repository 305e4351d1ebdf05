// The verbs, and how many words stand behind each.
use crate::joining::MOST;
use files::arg;
use wrongs::Wrong;

#[derive(Clone, Copy)]
pub(crate) enum Verb {
    Check,
    Show,
    Size,
    Name,
    Join,
    Cut,
    List,
    Make,
    Ext,
    Read,
    Help,
}

fn verb_of(s: &[u8]) -> Option<Verb> {
    Some(match s {
        b"check" => Verb::Check,
        b"show" => Verb::Show,
        b"size" => Verb::Size,
        b"name" => Verb::Name,
        b"join" => Verb::Join,
        b"cut" => Verb::Cut,
        b"list" => Verb::List,
        b"make" => Verb::Make,
        b"ext" => Verb::Ext,
        b"read" => Verb::Read,
        b"help" | b"--help" | b"-h" => Verb::Help,
        _ => return None,
    })
}

pub(crate) fn verb_at(rt: &HostRuntime, i: usize) -> Option<Verb> {
    let mut s = [0u8; 4096];
    let n = arg(rt, i, &mut s);
    verb_of(&s[..n])
}

// How many words stand behind a verb at least.
pub(crate) fn least(verb: Verb) -> usize {
    match verb {
        Verb::Check => 1,
        Verb::Show => 1,
        Verb::Size => 2,
        Verb::Name => 2,
        Verb::Join => 3,
        Verb::Cut => 5,
        Verb::List => 2,
        Verb::Make => 2,
        Verb::Ext => 2,
        Verb::Read => 3,
        Verb::Help => 0,
    }
}

// How many at most.
pub(crate) fn most(verb: Verb) -> usize {
    match verb {
        Verb::Show => 2,
        Verb::Join => MOST,
        Verb::List => 3,
        Verb::Make => 3,
        Verb::Ext => 3,
        Verb::Read => 4,
        _ => least(verb),
    }
}

// What is said where there are too few: a join says how many tables it wants.
pub(crate) fn too_few(verb: Verb) -> Wrong {
    match verb {
        Verb::Join => Wrong::FewTables,
        _ => Wrong::TooFew,
    }
}

pub(crate) fn too_many(verb: Verb) -> Wrong {
    match verb {
        Verb::Join => Wrong::ManyTables,
        _ => Wrong::TooMany,
    }
}

// A verb asks about one table, which can lean on a base.
pub(crate) fn is_of_one(verb: Verb) -> bool {
    matches!(
        verb,
        Verb::Check | Verb::Show | Verb::Size | Verb::Name | Verb::Read
    )
}
