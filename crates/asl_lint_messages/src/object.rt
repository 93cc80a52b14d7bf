// What is looked up once in an object of a definition, for all faults in it.
use crate::nouns::noun;
use asl_def_schema::{Shape, Sort, find, shape_in};
use asl_json::Member;
use std::alloc::{AllocError, Global};
use std::collections::HashSet;

/// An object, and what is looked up in it.
#[derive(Drop)]
pub(crate) struct Object<'a> {
    pub(crate) members: &'a [Member],
    /// What it is to be.
    pub(crate) sort: Sort,
    /// What it may have.
    pub(crate) shape: Shape,
    /// What it is called.
    pub(crate) noun: &'static str,
    /// The states of the machine that it is, or that it is in.
    pub(crate) states: &'a [Member],
    /// The names of the members that it may have and hasn't.
    pub(crate) absent: Vec<&'static str>,
    /// The keys of an object of a template.
    pub(crate) keys: HashSet<String>,
}

/// Whether values of this sort are machines.
pub(crate) fn is_machine(sort: Sort) -> bool {
    matches!(sort, Sort::Definition | Sort::Machine | Sort::ItemProcessor)
}

/// The states of a machine.
pub(crate) fn states_in(members: &[Member]) -> &[Member] {
    match find(members, "States") {
        Some(states) => states.members(),
        None => &[],
    }
}

/// The names of the members of this shape that aren't there.
fn absent_of(
    alloc: Global,
    shape: Shape,
    members: &[Member],
) -> Result<Vec<&'static str>, AllocError> {
    let mut absent = Vec::new(alloc);
    for row in shape.rows {
        if find(members, row.name()).is_none() {
            absent.push(row.name())?;
        }
    }
    Ok(absent)
}

/// The keys of an object of a template; of any other none.
fn keys_of(alloc: Global, sort: Sort, members: &[Member]) -> Result<HashSet<String>, AllocError> {
    let mut keys = HashSet::new(alloc);
    if sort == Sort::Template {
        for member in members {
            keys.insert(String::from_str(alloc, member.key.as_str())?)?;
        }
    }
    Ok(keys)
}

impl<'a> Object<'a> {
    /// What is looked up in an object of these members, which is in a machine of these states. The error is that memory ran out.
    pub(crate) fn of(
        alloc: Global,
        sort: Sort,
        members: &'a [Member],
        states: &'a [Member],
    ) -> Result<Object<'a>, AllocError> {
        let shape = shape_in(sort, members);
        let states = if is_machine(sort) {
            states_in(members)
        } else {
            states
        };
        Ok(Object {
            members,
            sort,
            shape,
            noun: noun(sort, members),
            states,
            absent: absent_of(alloc, shape, members)?,
            keys: keys_of(alloc, sort, members)?,
        })
    }
}
