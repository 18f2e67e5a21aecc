//! What a caller gets by reading, with and without tests of the blocks, and by `fractal_heap_decode_managed_id`, said from
//! their clauses `kept` and `from_bytes` alone, and so read from a file.
ghost use Rattle.std.specs.Prelude.{◌≡◌, ◌<◌, ℕ, List, length, Ok, Some, IsSomeAnd};
ghost use Rattle.fractal_heap.specs.declared.header.FractalHeapHeader.{FractalHeapHeader};
ghost use Rattle.fractal_heap.specs.Header.{header_at};
ghost use Rattle.heap_kept.specs.FromBytes.{ForWrittenUnchecked, ForWrittenChecked};
ghost use Rattle.heap_kept.specs.Kept.{ForKeptUnchecked, ForKeptChecked};
ghost use Rattle.ids.specs.Written.{HasTable, IsManaged};
ghost use Rattle.table.specs.Table.{fixed};
ghost use Rattle.fractal_heap_c.specs.InSlot.{NamesPlace};
ghost use Rattle.fractal_heap_c.specs.WrittenIds.{IsWrittenId};

use super::*;
use crate::open_plans::{
    OpenedPlan, fractal_heap_open_plan, fractal_heap_plan_add, fractal_heap_plan_totals,
};
use crate::unchecked::fractal_heap_read_managed_object_unchecked;
use crate::written_ids::fractal_heap_write_managed_id;
use fields::has_room;
use fields::little_endian::read_u64_le;
use fractal_heap_write::serialize;
use region_blocks::Site;
use std::test::Fail;

// The bytes that a slot names, as a caller takes them from the file, if there is no refusal.
fn named<'a>(file: &'a [u8], refusal: u32, slot: &[u8; 16]) -> Option<&'a [u8]>
    ensures { (bytes : List ℕ) → 0 < length bytes → NamesPlace refusal slot.now file.now bytes
        → IsSomeAnd result (λ found. found.now ≡ bytes) }
{
    let start = read_u64_le(slot, 0) as usize;
    let count = read_u64_le(slot, 8) as usize;
    if refusal != 0 || !has_room(file.len(), start, count) {
        return None;
    }
    Some(&file[start..start + count])
}

// The bytes of a managed object of a heap with this address of its header.
fn object_bytes<'a>(
    file: &'a [u8],
    at: u64,
    offset_size: u8,
    length_size: u8,
    heap_header_address: u64,
    id: &[u8],
) -> Option<&'a [u8]>
    ensures kept { (header : FractalHeapHeader)
        → header_at file.now at offset_size length_size ≡ Ok header
        → ForKeptChecked header heap_header_address file.now offset_size id.now
        (λ bytes. IsSomeAnd result (λ found. found.now ≡ bytes)) }
    ensures from_bytes { ForWrittenChecked file.now at offset_size length_size heap_header_address id.now
        (λ bytes. IsSomeAnd result (λ found. found.now ≡ bytes)) }
{
    let mut slot = [0u8; 16];
    let refusal = fractal_heap_read_managed_object(
        file,
        at,
        offset_size,
        length_size,
        heap_header_address,
        id,
        &mut slot,
    );
    named(file, refusal, &slot)
}

// The same, no block tested.
fn unchecked_bytes<'a>(
    file: &'a [u8],
    at: u64,
    offset_size: u8,
    length_size: u8,
    id: &[u8],
) -> Option<&'a [u8]>
    ensures kept { (header : FractalHeapHeader)
        → header_at file.now at offset_size length_size ≡ Ok header
        → ForKeptUnchecked header file.now offset_size id.now
        (λ bytes. IsSomeAnd result (λ found. found.now ≡ bytes)) }
    ensures from_bytes { ForWrittenUnchecked file.now at offset_size length_size id.now
        (λ bytes. IsSomeAnd result (λ found. found.now ≡ bytes)) }
{
    let mut slot = [0u8; 16];
    let refusal = fractal_heap_read_managed_object_unchecked(
        file,
        at,
        offset_size,
        length_size,
        id,
        &mut slot,
    );
    named(file, refusal, &slot)
}

// The heap offset and the length of a managed ID, as a caller takes them from the slot.
fn id_pair(file: &[u8], at: u64, offset_size: u8, length_size: u8, id: &[u8]) -> Option<(u64, u64)>
    ensures { (header : FractalHeapHeader)
        → header_at file.now at offset_size length_size ≡ Ok header
        → HasTable header.table fixed
        → (offset len : ℕ) → IsWrittenId id.now offset len
        → IsManaged len header.max_managed_object_size → result ≡ Some (offset, len) }
{
    let mut slot = [0u8; 16];
    let refusal = fractal_heap_decode_managed_id(file, at, offset_size, length_size, id, &mut slot);
    if refusal != 0 {
        return None;
    }
    Some((read_u64_le(&slot, 0), read_u64_le(&slot, 8)))
}

// An unfiltered header at 0 of a heap with the fixed geometry and checksums in its direct blocks, at an offset size and a
// length size of 8: the fields that the reader heeds, by the HDF5 File Format Specification 3.0, III.G, 'Fractal Heap
// Header'.
fn header(root: u64, rows: u16) -> [u8; 146] {
    let mut header = [0u8; 146];
    header[..4].copy_from_slice(b"FRHP");
    header[5] = 8;
    header[9] = 2;
    header[10..14].copy_from_slice(&65_514u32.to_le_bytes());
    header[110] = 4;
    header[112..120].copy_from_slice(&1_024u64.to_le_bytes());
    header[120..128].copy_from_slice(&65_536u64.to_le_bytes());
    header[128] = 40;
    header[132..140].copy_from_slice(&root.to_le_bytes());
    header[140..142].copy_from_slice(&rows.to_le_bytes());
    let sum = fractal_heap_checksum(&header[..142]);
    header[142..].copy_from_slice(&sum.to_le_bytes());
    header
}

// A file with the header at 0 and behind it the region of objects of 1,002 bytes and of 1: the root, of one row, has 54
// bytes and begins the region, and two blocks of 1,024 bytes follow it. The second object is at the heap offset 1,046.
fn heap_of_two(objects: &[u8; 1_003]) -> Result<[u8; 2_248], FormatError> {
    let site = Site {
        offset_size: 8,
        heap_header_address: 0,
        region_address: 146,
    };
    let mut file = [0u8; 2_248];
    let (front, region) = file.split_at_mut(146);
    front.copy_from_slice(&header(146, 1));
    let (offsets, blocks) = (&mut [0; 2], &mut [0; 2]);
    serialize(&[1_002, 1], objects, site, offsets, blocks, region)?;
    Ok(file)
}

#[test]
fn an_object_is_found(rt: HostRuntime) -> Result<(), Fail> {
    let mut objects = [5u8; 1_003];
    objects[1_002] = 7;
    let file = heap_of_two(&objects)?;
    let (mut id, mut slot) = ([0u8; 8], [0u8; 16]);
    let written = fractal_heap_write_managed_id(1_046, 1, &mut id, &mut slot);
    assert_eq!(rt; written, 0);
    assert_eq!(rt; id_pair(&file, 0, 8, 8, &id), Some((1_046, 1)));
    let found = object_bytes(&file, 0, 8, 8, 0, &id).ok_or("the second object")?;
    assert_eq!(rt; found, [7].as_slice());
    let found = unchecked_bytes(&file, 0, 8, 8, &id).ok_or("the second object, untested")?;
    assert_eq!(rt; found, [7].as_slice());
    let written = fractal_heap_write_managed_id(22, 1_002, &mut id, &mut slot);
    assert_eq!(rt; written, 0);
    let found = object_bytes(&file, 0, 8, 8, 0, &id).ok_or("the first object")?;
    assert_eq!(rt; found, &objects[..1_002]);
    Ok(())
}

// The last byte of the second object's block is changed: 18, and the block that is told has the address 1,224, behind the
// root and the first block, and the heap offset 1,024. The first object does not come to it. To another header's address
// the root is a foreign block, and an ID of another type comes to no block.
#[test]
fn a_damaged_block_is_refused(rt: HostRuntime) -> Result<(), Fail> {
    let mut file = heap_of_two(&[5; 1_003])?;
    file[2_247] ^= 1;
    let (mut id, mut slot) = ([0u8; 8], [0u8; 16]);
    let written = fractal_heap_write_managed_id(1_046, 1, &mut id, &mut slot);
    assert_eq!(rt; written, 0);
    let refusal = fractal_heap_read_managed_object(&file, 0, 8, 8, 0, &id, &mut slot);
    assert_eq!(rt; refusal, 18);
    assert_eq!(rt;
        fractal_heap_stopping_block(&file, 0, 8, 8, 0, &id, &mut slot),
        0
    );
    assert_eq!(rt; values(&slot), (1_224, 1_024));
    let found = unchecked_bytes(&file, 0, 8, 8, &id).ok_or("the damaged block, untested")?;
    assert_eq!(rt; found, [5].as_slice());
    let refusal = fractal_heap_read_managed_object(&file, 0, 8, 8, 7, &id, &mut slot);
    assert_eq!(rt; refusal, 19);
    assert_eq!(rt; values(&slot), (0, 7));
    assert_eq!(rt;
        fractal_heap_stopping_block(&file, 0, 8, 8, 7, &id, &mut slot),
        0
    );
    assert_eq!(rt; values(&slot), (146, 0));
    let written = fractal_heap_write_managed_id(22, 1_002, &mut id, &mut slot);
    assert_eq!(rt; written, 0);
    assert!(rt; object_bytes(&file, 0, 8, 8, 0, &id).is_some());
    id[0] = 0x10;
    assert_eq!(rt;
        fractal_heap_stopping_block(&file, 0, 8, 8, 0, &id, &mut slot),
        6
    );
    assert_eq!(rt; values(&slot), (1, 0));
    Ok(())
}

// The two values of a slot.
fn values(slot: &[u8; 16]) -> (u64, u64) {
    (read_u64_le(slot, 0), read_u64_le(slot, 8))
}

// The worked ID of 1,003 bytes at 8,214, and the refusals: 16 before 13, of which the slot says nothing.
#[test]
fn an_id_is_written(rt: HostRuntime) -> Result<(), Fail> {
    let (mut id, mut slot) = ([9; 9], [9; 16]);
    let written = fractal_heap_write_managed_id(8_214, 1_003, &mut id, &mut slot);
    assert_eq!(rt; written, 0);
    assert_eq!(rt; id, [0x00, 0x16, 0x20, 0x00, 0x00, 0x00, 0xEB, 0x03, 9]);
    assert_eq!(rt; values(&slot), (0, 0));
    let before = id;
    let end = 1 << 40;
    let written = fractal_heap_write_managed_id(end, 0, &mut id[..7], &mut slot);
    assert_eq!(rt; written, 16);
    assert_eq!(rt; values(&slot), (end, 0));
    let written = fractal_heap_write_managed_id(22, 1, &mut id[..7], &mut slot);
    assert_eq!(rt; written, 13);
    assert_eq!(rt; values(&slot), (end, 0));
    let written = fractal_heap_write_managed_id(22, 1, &mut id, &mut slot[..15]);
    assert_eq!(rt; written, 13);
    assert_eq!(rt; id, before);
    Ok(())
}

// The worked heap of 1,002 and 1 bytes, one by one, with refused sizes between them.
#[test]
fn a_plan_is_advanced(rt: HostRuntime) -> Result<(), Fail> {
    let mut slot = [9; 16];
    let OpenedPlan { number, mut plan } = fractal_heap_open_plan(8, &mut slot);
    assert_eq!(rt; number, 0);
    assert_eq!(rt; values(&slot), (0, 0));
    assert_eq!(rt; fractal_heap_plan_add(&mut plan, 1_002, &mut slot), 0);
    assert_eq!(rt; values(&slot), (22, 0));
    assert_eq!(rt; fractal_heap_plan_add(&mut plan, 65_515, &mut slot), 11);
    assert_eq!(rt; values(&slot), (1, 65_515));
    assert_eq!(rt; fractal_heap_plan_add(&mut plan, 1, &mut slot[..15]), 13);
    assert_eq!(rt; fractal_heap_plan_add(&mut plan, 1, &mut slot), 0);
    assert_eq!(rt; values(&slot), (1_046, 0));
    let mut totals = [7; 9];
    assert_eq!(rt; fractal_heap_plan_totals(&plan, &mut totals), 0);
    assert_eq!(rt; totals, [2, 2_102, 1, 0, 4_096, 2_048, 3_005, 2_048, 7]);
    assert_eq!(rt; fractal_heap_plan_totals(&plan, &mut totals[..7]), 13);
    Ok(())
}

// No plan is opened for a width that is none, nor with too short a slot.
#[test]
fn no_plan_is_opened(rt: HostRuntime) -> Result<(), Fail> {
    let mut slot = [9; 16];
    assert_eq!(rt; fractal_heap_open_plan(3, &mut slot).number, 2);
    assert_eq!(rt; values(&slot), (3, 0));
    let unopened = fractal_heap_open_plan(2, &mut slot[..15]);
    assert_eq!(rt; unopened.number, 13);
    assert_eq!(rt; unopened.plan.planner.offset_size, 8);
    Ok(())
}

// As many objects as a plan can count: 12 for any size that 11 lets pass.
#[test]
fn a_plan_is_full(rt: HostRuntime) -> Result<(), Fail> {
    let mut slot = [9; 16];
    let OpenedPlan {
        number: _,
        mut plan,
    } = fractal_heap_open_plan(8, &mut slot);
    plan.objects = u64::MAX - 1;
    assert_eq!(rt; fractal_heap_plan_add(&mut plan, 0, &mut slot), 0);
    assert_eq!(rt; fractal_heap_plan_add(&mut plan, 0, &mut slot), 12);
    assert_eq!(rt; values(&slot), (u64::MAX, 0));
    assert_eq!(rt; fractal_heap_plan_add(&mut plan, 65_515, &mut slot), 11);
    assert_eq!(rt; values(&slot), (u64::MAX, 65_515));
    Ok(())
}
