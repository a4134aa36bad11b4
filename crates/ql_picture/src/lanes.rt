ghost use Rattle.std.specs.Prelude.{◌≡◌, position};
ghost use Rattle.ql_picture.specs.Places.{is_lane_of, same_session};

use ql_base::{IdSet, NoMemory};
use ql_history::{Column, History, Spot};
use std::alloc::Global;

/// A row of a picture: the line of a replica, or that of a session at it.
#[derive(Clone, Copy)]
pub struct Lane {
    pub replica: u32,
    pub session: Option<u32>,
}

/// The index of a spot's row, if it has one.
pub(crate) fn row_of(lanes: &[Lane], spot: Spot) -> Option<usize>
    ensures { result ≡ position (is_lane_of spot) lanes.now }
{
    lanes.iter().position(|lane| is_lane_of(spot, *lane))
}

fn is_lane_of(spot: Spot, lane: Lane) -> bool
    ensures { result ≡ is_lane_of spot lane }
{
    lane.replica == spot.replica && same_session(lane.session, spot.session)
}

fn same_session(one: Option<u32>, other: Option<u32>) -> bool
    ensures { result ≡ same_session one other }
{
    match (one, other) {
        (Some(a), Some(b)) => a == b,
        (None, None) => true,
        _ => false,
    }
}

/// Whether two spots belong to one session at one replica.
pub(crate) fn is_in_lane(one: Spot, other: Spot) -> bool {
    one.replica == other.replica && same_session(one.session, other.session)
}

/// The rows of a history: each replica's line, if there are replicas, and below it those of its sessions.
pub(crate) fn lanes_of(alloc: Global, history: &History) -> Result<Vec<Lane>, NoMemory> {
    let mut lanes = Vec::new(alloc);
    for replica in 0..history.replicas.max(1) {
        if history.replicas > 0 {
            let session = None;
            lanes.push(Lane { replica, session })?;
        }
        push_sessions(
            &mut lanes,
            replica,
            &sessions_at(alloc, &history.columns, replica)?,
        )?;
    }
    Ok(lanes)
}

fn push_sessions(lanes: &mut Vec<Lane>, replica: u32, sessions: &IdSet) -> Result<(), NoMemory> {
    for session in sessions.items() {
        let session = Some(*session);
        lanes.push(Lane { replica, session })?;
    }
    Ok(())
}

// The sessions that acted at a replica.
fn sessions_at(alloc: Global, columns: &[Column], replica: u32) -> Result<IdSet, NoMemory> {
    let mut sessions = IdSet::new(alloc);
    for column in columns {
        match column.spot.session {
            Some(session) if column.spot.replica == replica => {
                sessions.insert(session)?;
            }
            _ => {}
        }
    }
    Ok(sessions)
}
