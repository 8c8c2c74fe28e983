//! Reactions that were worked out by hand: what they touch, and why.
use crate::in_place::cases::Tie::{Edge, Named};
use crate::in_place::texts::Model;
use crate::in_place::touching::has_touched;
use bg_base::{Link, Name};
use bg_index::{Causes, Relinked, Touched};

/// A link: an edge by its number, or an outer name.
pub(crate) enum Tie {
    Edge(u32),
    Named(&'static str),
}

/// A reaction of a model's host by its rule of that number, at the nodes of the map: the nodes that are gone, changed, moved
/// and reshaped; the links that are relinked, with the number of points that they had.
pub(crate) struct Case {
    pub model: Model,
    pub rule: usize,
    pub map: &'static [u32],
    pub gone: &'static [u32],
    pub changed: &'static [u32],
    pub moved: &'static [u32],
    pub reshaped: &'static [u32],
    pub relinked: &'static [(Tie, u32)],
}

pub(crate) const CASES: [Case; 15] = [
    Case {
        model: Model::Building,
        rule: 0,
        map: &[4, 1],
        gone: &[1, 4],
        changed: &[0, 6, 7],
        moved: &[],
        reshaped: &[0, 6],
        relinked: &[(Named("a"), 1)],
    },
    Case {
        model: Model::Copying,
        rule: 0,
        map: &[0],
        gone: &[0],
        changed: &[1, 2, 3, 4],
        moved: &[1, 2],
        reshaped: &[],
        relinked: &[(Edge(0), 2)],
    },
    Case {
        model: Model::Swapping,
        rule: 0,
        map: &[1, 4],
        gone: &[1, 4],
        changed: &[0, 2, 3, 5, 9, 10],
        moved: &[2, 5],
        reshaped: &[0, 3, 9, 10],
        relinked: &[],
    },
    Case {
        model: Model::Swapping,
        rule: 0,
        map: &[1, 7],
        gone: &[1, 7],
        changed: &[0, 2, 8, 9, 10],
        moved: &[2, 8],
        reshaped: &[0, 9, 10],
        relinked: &[],
    },
    Case {
        model: Model::Ports,
        rule: 0,
        map: &[1],
        gone: &[1, 2, 3],
        changed: &[0, 14],
        moved: &[],
        reshaped: &[0],
        relinked: &[(Edge(0), 2)],
    },
    Case {
        model: Model::Ports,
        rule: 0,
        map: &[4],
        gone: &[4, 5],
        changed: &[0, 6, 14],
        moved: &[],
        reshaped: &[0],
        relinked: &[(Edge(1), 2)],
    },
    Case {
        model: Model::Ports,
        rule: 1,
        map: &[7],
        gone: &[7],
        changed: &[0, 8, 14],
        moved: &[],
        reshaped: &[0],
        relinked: &[(Edge(2), 3)],
    },
    Case {
        model: Model::Ports,
        rule: 2,
        map: &[8],
        gone: &[8],
        changed: &[0, 7, 14],
        moved: &[],
        reshaped: &[0],
        relinked: &[(Edge(2), 3)],
    },
    Case {
        model: Model::Ports,
        rule: 2,
        map: &[9],
        gone: &[9],
        changed: &[0, 10, 14],
        moved: &[],
        reshaped: &[0],
        relinked: &[(Named("n"), 2)],
    },
    Case {
        model: Model::Ports,
        rule: 2,
        map: &[13],
        gone: &[13],
        changed: &[12, 14],
        moved: &[],
        reshaped: &[12],
        relinked: &[(Named("m"), 1)],
    },
    Case {
        model: Model::Ports,
        rule: 3,
        map: &[2, 3],
        gone: &[2, 3],
        changed: &[1, 14, 15],
        moved: &[],
        reshaped: &[1],
        relinked: &[(Edge(0), 2), (Edge(3), 0), (Edge(4), 0)],
    },
    Case {
        model: Model::Ports,
        rule: 4,
        map: &[11],
        gone: &[11],
        changed: &[0, 12],
        moved: &[12],
        reshaped: &[0],
        relinked: &[],
    },
    Case {
        model: Model::Ports,
        rule: 4,
        map: &[1],
        gone: &[1],
        changed: &[0, 2, 3],
        moved: &[2, 3],
        reshaped: &[0],
        relinked: &[],
    },
    Case {
        model: Model::Ports,
        rule: 5,
        map: &[5],
        gone: &[5],
        changed: &[4, 6, 14],
        moved: &[],
        reshaped: &[4],
        relinked: &[(Edge(1), 2), (Edge(3), 0)],
    },
    Case {
        model: Model::Ports,
        rule: 5,
        map: &[13],
        gone: &[13],
        changed: &[12, 14],
        moved: &[],
        reshaped: &[12],
        relinked: &[(Edge(3), 0), (Named("m"), 1)],
    },
];

/// Whether that is touched which the case says.
pub(crate) fn touches(touched: &Touched, case: &Case) -> bool {
    has_touched(touched, case.gone, case.changed)
}

fn is_link(link: &Link, tie: &Tie) -> bool {
    match (link, tie) {
        (Link::Edge(edge), Edge(number)) => edge == number,
        (Link::Outer(Name::Plain(word)), Named(name)) => word.as_str() == *name,
        _ => false,
    }
}

/// Whether the link is told with so many points.
fn is_told(relinked: &[Relinked], tie: &Tie, degree: u32) -> bool {
    relinked
        .iter()
        .any(|told| told.degree == degree && is_link(&told.link, tie))
}

/// Whether these links are told, and no others.
fn are_told(relinked: &[Relinked], ties: &[(Tie, u32)]) -> bool {
    relinked.len() == ties.len()
        && ties
            .iter()
            .all(|(tie, degree)| is_told(relinked, tie, *degree))
}

/// Whether the causes are those that the case says.
pub(crate) fn has_causes(causes: &Causes, case: &Case) -> bool {
    causes.gone.as_slice() == case.gone
        && causes.moved.as_slice() == case.moved
        && causes.reshaped.as_slice() == case.reshaped
        && are_told(causes.relinked.as_slice(), case.relinked)
}
