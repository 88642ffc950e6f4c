//! Rising tracks: which way the beams of one axis go.

ghost use Rattle.std.specs.Prelude.{◌≡◌, ◌<◌, ◌≤◌, ◌↔◌, ◌++◌, [], ◌∷◌, ℕ, IsTrue, OnOk, length};
ghost use Rattle.std.specs.List.{All, slice_index_or};
ghost use Rattle.zac_group.specs.Tracks.{AreRising, AreTracksOf, IsJoining, KeepsOrder, Takes};
ghost use Rattle.zac_group.specs.declared.tracks.Track.{Track};

use zac_memory::Memory;

/// Where a beam of one axis begins and ends, in tenths of a micrometre.
#[derive(Clone, Copy, Debug, PartialEq, Eq)]
pub struct Track {
    /// Where it begins.
    pub from: u32,
    /// Where it ends.
    pub to: u32,
}

/// How a track joins rising ones.
#[derive(Clone, Copy)]
pub enum Joining {
    /// It is one of them.
    Shared,
    /// It lies behind those before this place, and before the others.
    Between(usize),
    /// With one of them it doesn't keep order.
    Crossing,
}

/// The place of the first track that begins here or further on.
fn first_from(tracks: &[Track], from: u32) -> usize
    requires { AreRising tracks.now }
    ensures within { result ≤ length tracks.now }
    ensures before { (k : ℕ) → (d : Track) → k < result → (slice_index_or tracks.now k d).from < from }
    ensures rest { (k : ℕ) → (d : Track) → result ≤ k → k < length tracks.now → from ≤ (slice_index_or tracks.now k d).from }
{
    tracks.partition_point(|track| track.from < from)
}

/// How a track joins rising ones: its neighbours among them tell it.
fn place_of(tracks: &[Track], track: Track) -> Joining
    requires { AreRising tracks.now }
    ensures { IsJoining tracks.now track result }
{
    let place = first_from(tracks, track.from);
    if place < tracks.len() {
        let next = tracks[place];
        if next.from == track.from {
            return if next.to == track.to {
                Joining::Shared
            } else {
                Joining::Crossing
            };
        }
        if next.to <= track.to {
            return Joining::Crossing;
        }
    }
    if place > 0 && track.to <= tracks[place - 1].to {
        return Joining::Crossing;
    }
    Joining::Between(place)
}

/// Whether a track keeps order with rising ones, and with it they are not more than so many.
pub fn takes(tracks: &[Track], track: Track, most: usize) -> bool
    requires { AreRising tracks.now }
    ensures { IsTrue result ↔ Takes tracks.now track most }
{
    match place_of(tracks, track) {
        Joining::Shared => tracks.len() <= most,
        Joining::Between(_) => tracks.len() < most,
        Joining::Crossing => false,
    }
}

/// Adds a track that keeps order with rising ones.
pub fn join(tracks: &mut Vec<Track>, track: Track) -> Result<(), Memory>
    requires rising { AreRising tracks.old.items }
    requires order { All (KeepsOrder track) tracks.old.items }
    ensures { OnOk result (AreTracksOf (tracks.old.items ++ track ∷ []) tracks.new.items) }
{
    match place_of(tracks.as_slice(), track) {
        Joining::Between(place) => tracks.insert(place, track)?,
        Joining::Shared => {}
        Joining::Crossing => {}
    }
    Ok(())
}
