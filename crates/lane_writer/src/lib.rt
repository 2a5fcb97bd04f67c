// A network's one lane file, written front to back into a buffer.
#![tactic(auto)]

ghost use Rattle.std.specs.Prelude.{◌≡◌, [], ◌∷◌, ◌++◌, ◌+◌, ◌-◌, ◌*◌, ◌≤◌, length, take, drop, replicate};
ghost use Rattle.base.specs.Lists.{joined, two_bytes};
ghost use Rattle.block_check.specs.Crc.{crc};
ghost use Rattle.network.specs.Rules.{total, blocks_for};
ghost use Rattle.lane_file.specs.File.{slot_of, record_of, first_block, checked, file_of, size_of};
ghost use Rattle.lane_writer.specs.Put.{put};
ghost use Rattle.lane_file.specs.Write.{outcome, wrote_of, write_of};

use base::Refusal;
use network::Network;

// Two bytes.
fn pair(buffer: &mut [u8], at: usize, x: u8, y: u8)
    requires { at + 2 ≤ length buffer.old }
    ensures { buffer.new ≡ put buffer.old at (x ∷ y ∷ []) }
{
    buffer[at] = x;
    buffer[at + 1] = y;
}

// A number of two bytes, highest first.
fn two(buffer: &mut [u8], at: usize, v: u16)
    requires { at + 2 ≤ length buffer.old }
    ensures { buffer.new ≡ put buffer.old at (two_bytes v) }
{
    pair(buffer, at, (v / 256) as u8, (v % 256) as u8);
}

// Bytes 0 to 7 of the file.
fn header(buffer: &mut [u8], processes: u8, channels: u8, blocks: u8)
    requires { 8 ≤ length buffer.old }
    ensures { buffer.new ≡ put buffer.old 0 (0x4C ∷ 0x4E ∷ 1 ∷ processes ∷ channels ∷ blocks ∷ 0 ∷ 0 ∷ []) }
{
    buffer[..8].copy_from_slice(&[0x4C, 0x4E, 1, processes, channels, blocks, 0, 0]);
}

// The 16 process slots, from byte 8.
fn slots(net: &Network, buffer: &mut [u8])
    requires { 72 ≤ length buffer.old }
    ensures { buffer.new ≡ put buffer.old 8 (joined (slot_of net.now) 0 16) }
{
    for p in 0..16 {
        two(buffer, 8 + 4 * p, net.first[p]);
        two(buffer, 10 + 4 * p, net.count[p]);
    }
}

// The 32 channel records, from byte 72.
fn records(net: &Network, buffer: &mut [u8])
    requires { 200 ≤ length buffer.old }
    ensures { buffer.new ≡ put buffer.old 72 (joined (record_of net.now) 0 32) }
{
    for c in 0..32 {
        pair(buffer, 72 + 4 * c, net.sender[c], net.receiver[c]);
        two(buffer, 74 + 4 * c, net.capacity[c]);
    }
}

// So many zeros.
fn zeros(buffer: &mut [u8], at: usize, n: usize)
    requires { at + n ≤ length buffer.old }
    ensures { buffer.new ≡ put buffer.old at (replicate n 0) }
{
    buffer[at..at + n].fill(0);
}

// The 508 bytes of the code from a place on.
fn code(buffer: &mut [u8], at: usize, code: &[u8; 4064], from: usize)
    requires { (at + 508 ≤ length buffer.old) × (from + 508 ≤ 4064) × (length code.now ≡ 4064) }
    ensures { buffer.new ≡ put buffer.old at (take 508 (drop from code.now)) }
{
    buffer[at..at + 508].copy_from_slice(&code[from..from + 508]);
}

// The check of the block that begins at a place, in its last two bytes.
fn seal(buffer: &mut [u8], at: usize)
    requires { at + 512 ≤ length buffer.old }
    ensures { buffer.new ≡ put buffer.old (at + 510) (two_bytes (crc (take 510 (drop at buffer.old)))) }
{
    let end = at + 510;
    let check = block_check::check(&buffer[at..end]);
    two(buffer, end, check);
}

// Block 0.
fn first_block(net: &Network, buffer: &mut [u8], blocks: u8)
    requires { (512 ≤ length buffer.old) × (net.now.processes ≤ 16) × (net.now.channels ≤ 32) × (blocks ≡ blocks_for (total net.now)) }
    ensures { buffer.new ≡ put buffer.old 0 (checked (first_block net.now)) }
{
    header(buffer, net.processes as u8, net.channels as u8, blocks);
    slots(net, buffer);
    records(net, buffer);
    zeros(buffer, 200, 310);
    seal(buffer, 0);
}

// Code block k.
fn code_block(buffer: &mut [u8], bytes: &[u8; 4064], k: u16)
    requires { (1 ≤ k) × (k ≤ 8) × (512 * (k + 1) ≤ length buffer.old) × (length bytes.now ≡ 4064) }
    ensures { buffer.new ≡ put buffer.old (512 * k) (checked (take 508 (drop (508 * (k - 1)) bytes.now) ++ two_bytes k)) }
{
    // `as`: with `usize::from` the answers need three rewrites more.
    let at = 512 * (k as usize);
    code(buffer, at, bytes, 508 * ((k - 1) as usize));
    two(buffer, at + 508, k);
    seal(buffer, at);
}

// The file of a network with so many code blocks.
fn file(net: &Network, buffer: &mut [u8], blocks: u16)
    requires { (net.now.processes ≤ 16) × (net.now.channels ≤ 32) × (blocks ≡ blocks_for (total net.now)) × (blocks ≤ 8) × (size_of net.now ≤ length buffer.old) }
    ensures { buffer.new ≡ file_of net.now ++ drop (size_of net.now) buffer.old }
{
    first_block(net, buffer, blocks as u8);
    for k in 1..blocks + 1 {
        code_block(buffer, &net.code, k);
    }
}

// The one lane file of a network, at the front of the buffer, and its length; or a refusal, with the buffer as it was. The network is taken by value:
// `handed_shaped` and `handed_bytes` say of each that is handed in that its arrays are whole, which is not known of one that is lent and not read here.
pub fn write(net: Network, buffer: &mut [u8]) -> Result<usize, Refusal>
    ensures { outcome (wrote_of result) buffer.new ≡ write_of net buffer.old }
{
    if !passing::passes(&net) {
        return Err(Refusal::Unsound);
    }
    let blocks = (network::total(&net) + 126) / 127;
    let size = 512 * (blocks + 1);
    let room = buffer.len();
    if room < size {
        return Err(Refusal::Buffer);
    }
    file(&net, buffer, blocks as u16);
    Ok(size)
}
