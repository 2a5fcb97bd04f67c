// What an edit of a script does to a lane and its cells.
use call_scripts::edits::Edit;
use lane::Lane;
use network::Network;

fn edit_network(network: &mut Network, edit: Edit) {
    match edit {
        Edit::Network {
            processes,
            channels,
        } => {
            network.processes = processes;
            network.channels = channels;
        }
        Edit::Slot { k, first, count } => {
            network.first[k % 16] = first;
            network.count[k % 16] = count;
        }
        Edit::Record {
            k,
            sender,
            receiver,
            capacity,
        } => {
            network.sender[k % 32] = sender;
            network.receiver[k % 32] = receiver;
            network.capacity[k % 32] = capacity;
        }
        Edit::Byte(k, byte) => network.code[k % 4064] = byte,
        _ => {}
    }
}

pub fn edit(lane: &mut Lane, cells: &mut [i32], edit: Edit) {
    match edit {
        Edit::Process(k, standing) => lane.processes[k % 16] = standing,
        Edit::Register(k, v) => lane.registers[k % 128] = v,
        Edit::Channel(k, channel) => lane.channels[k % 32] = channel,
        Edit::Cell(k, v) => {
            if let Some(cell) = cells.get_mut(k) {
                *cell = v;
            }
        }
        Edit::Accepted(n) => lane.accepted = n,
        _ => edit_network(&mut lane.network, edit),
    }
}
