// The stations of workers are made, and ended.
ghost use Rattle.std.specs.Prelude.{All, IsErrOf, IsTrue, OnOk, [], length, map, vec_capacity, vec_len, ◌+◌, ◌++◌, ◌≡◌, ◌≤◌};
ghost use Rattle.rock_disk.specs.File.{IsThere};
ghost use Rattle.rock_io.specs.Faults.{Rose};

use rock_disk::{StationFault, Volume};

/// Makes so many stations for a file. There is room for them. Where one is refused, those before it are there.
pub(crate) fn make_stations<V: Volume>(
    volume: &mut V,
    name: &str,
    count: usize,
    stations: &mut Vec<V::St>,
) -> Result<(), StationFault>
    requires there { IsTrue V.tells → IsThere (V.files volume.old) name.now }
    requires empty { stations.old.items ≡ [] }
    requires room { count ≤ vec_capacity stations.old }
    ensures all { OnOk result (vec_len stations.new ≡ count) }
    ensures fresh { All (λ (s : V.St). V.St.faults s ≡ 0) stations.new.items }
    ensures room { vec_capacity stations.new ≡ vec_capacity stations.old }
    ensures made { V.made volume.new ≡ V.made volume.old + vec_len stations.new }
    ensures failed { IsErrOf result StationFault.Failed → Rose (V.faults volume.old) (V.faults volume.new) }
    ensures unfailed { (IsErrOf result StationFault.Failed → ⊥) → V.faults volume.new ≡ V.faults volume.old }
    ensures faults { V.faults volume.old ≤ V.faults volume.new }
    ensures files { V.files volume.new ≡ V.files volume.old }
    ensures ended { V.ended volume.new ≡ V.ended volume.old }
{
    for _ in 0..count {
        stations.push_reserved(volume.station(name)?);
    }
    Ok(())
}

/// Ends stations, in their order.
pub(crate) fn end_stations<V: Volume>(volume: &mut V, mut stations: Vec<V::St>)
    requires { length (V.ended volume.old) + vec_len stations ≤ V.made volume.old }
    ensures ended { V.ended volume.new ≡ V.ended volume.old ++ map V.St.faults stations.items }
    ensures made { V.made volume.new ≡ V.made volume.old }
    ensures files { V.files volume.new ≡ V.files volume.old }
    ensures faults { V.faults volume.new ≡ V.faults volume.old }
{
    for _ in 0..stations.len() {
        volume.end_station(stations.remove(0));
    }
    stations.destroy_empty();
}
