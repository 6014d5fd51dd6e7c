//! Laws of the definitions, for the crates above and for the reader.
ghost use Rattle.std.specs.Prelude.{◌≡◌, ℕ, ◌+◌, ◌*◌, ◌/◌, ◌<◌, List, [], ◌∷◌, ◌++◌, replicate, None, true, false, is_ok, Ok, Err, map, length, get_or, option_map, nat_eq, IsTrue, if◌then◌else◌};
ghost use Rattle.memory_window.specs.declared.regions.Region.{Region};
ghost use Rattle.memory_window.specs.declared.operations.MemOp.{MemOp};
ghost use Rattle.std.specs.List.{list_any};
ghost use Rattle.memory_window.specs.declared.operations.MemOp.TheVariants.{Poke, Fill, Bytes, FromFile, Protect};
ghost use Rattle.memory_window.specs.declared.access.AccessFault.TheVariants.{Outside, Unaligned, WrongSize, Protected};
ghost use Rattle.memory_window.specs.Rows.{worked_memory};
ghost use Rattle.memory_window.specs.Numbers.{number_of};
ghost use Rattle.memory_window.specs.Reading.{IsWhole, StandAt};
ghost use Rattle.memory_window.specs.Regions.{blank, holds, map_fault_of};
ghost use Rattle.memory_window.specs.Memory.{Memory, byte_at, each_from, regions_of, start_memory, upset_at};
ghost use Rattle.memory_window.specs.Operations.{IsBacked, load_bytes};
ghost use Rattle.memory_window.specs.Landing.{covers, land, landed};
ghost use Rattle.memory_window.specs.Access.{Admitted, admits_of, read_of, bytes_of, gives_read, gives_bytes};
ghost use Rattle.memory_window.specs.Banks.{bank_size, bank_of, bank_holds, bank_at};

/// Of the regions of a map at most one has an address.
pub fn regions_are_apart()
    ensures { (regions : List Region) → map_fault_of regions ≡ None → (i j a : ℕ)
        → i < length regions → j < length regions → IsTrue (holds a (get_or regions i blank))
        → IsTrue (holds a (get_or regions j blank)) → i ≡ j }
{}

/// Landing is a function of one address and the byte there, and changes no region.
pub fn landing_is_by_address()
    ensures bytes { (loads : List (ℕ × List ℕ)) → (ops : List MemOp) → (m : Memory) → (a : ℕ)
        → byte_at (land loads ops m).areas a ≡ option_map (landed loads ops a) (byte_at m.areas a) }
    ensures map { (loads : List (ℕ × List ℕ)) → (ops : List MemOp) → (m : Memory)
        → regions_of (land loads ops m).areas ≡ regions_of m.areas }
{}

/// An upset changes the byte at its address alone, and no region.
pub fn upset_is_by_address()
    ensures bytes { (m : Memory) → (at value a : ℕ)
        → byte_at (upset_at m at value).areas a
        ≡ option_map (λ x. if nat_eq a at then value else x) (byte_at m.areas a) }
    ensures map { (m : Memory) → (at value : ℕ)
        → regions_of (upset_at m at value).areas ≡ regions_of m.areas }
{}

/// Each address of a region lies in exactly one of its banks.
#[tactic(auto, using(crate::proofs::BankLaws::bank_has, crate::proofs::BankLaws::bank_is))]
pub fn each_address_has_one_bank()
    ensures some { (r : Region) → (at : ℕ) → IsTrue (holds at r)
        → IsTrue (bank_holds (bank_at r at) r at) }
    ensures one { (r : Region) → (at n : ℕ) → IsTrue (bank_holds n r at) → n ≡ bank_at r at }
{}

/// What operations make of a bank by itself is that bank of what they make of its region.
#[tactic(auto, using(crate::proofs::BankLaws::bank_alone))]
pub fn banks_land_alone()
    ensures { (loads : List (ℕ × List ℕ)) → (ops : List MemOp) → (at n : ℕ) → (bytes : List ℕ)
        → bank_of n (each_from (landed loads ops) at bytes)
        ≡ each_from (landed loads ops) (at + n * bank_size) (bank_of n bytes) }
{}

/// Whether memory gives a read or a range depends on its regions alone.
#[tactic(auto, using(crate::proofs::Given::read_given, crate::proofs::Given::bytes_given))]
pub fn what_is_given_is_by_regions()
    ensures read { (image : Memory) → (size at : ℕ)
        → is_ok (read_of size image at) ≡ gives_read (regions_of image.areas) size at }
    ensures bytes { (image : Memory) → (at len : ℕ)
        → is_ok (bytes_of image at len) ≡ gives_bytes (regions_of image.areas) at len }
{}

/// A read or a range that the regions give has a value.
#[tactic(auto, using(crate::proofs::Given::read_value, crate::proofs::Given::range_bytes))]
pub fn what_is_given_has_a_value()
    ensures read { (image : Memory) → (size at : ℕ)
        → gives_read (regions_of image.areas) size at ≡ true → (value : ℕ)
        × (read_of size image at ≡ Ok value) }
    ensures bytes { (image : Memory) → (at len : ℕ)
        → gives_bytes (regions_of image.areas) at len ≡ true → (bytes : List ℕ)
        × (bytes_of image at len ≡ Ok bytes) }
{}

/// Memory of a map at its start is whole, and landing and an upset leave it whole.
pub fn memory_stays_whole()
    ensures start { (regions : List Region) → map_fault_of regions ≡ None
        → IsWhole (start_memory regions) }
    ensures land { (loads : List (ℕ × List ℕ)) (ops : List MemOp) (m : Memory) → IsWhole m
        → IsWhole (land loads ops m) }
    ensures upset { (m : Memory) (at value : ℕ) → IsWhole m → IsWhole (upset_at m at value) }
{}

/// The bytes of a range are the bytes at its addresses, and a number that is read is that of the bytes at its addresses.
pub fn reads_are_of_bytes()
    ensures bytes { (m : Memory) → IsWhole m → (at len : ℕ) (bytes : List ℕ)
        → bytes_of m at len ≡ Ok bytes → (length bytes ≡ len) × StandAt m.areas at bytes }
    ensures read { (m : Memory) → IsWhole m → (size at value : ℕ) → read_of size m at ≡ Ok value
        → (bytes : List ℕ) × (length bytes ≡ size / 8) × StandAt m.areas at bytes
        × (value ≡ number_of bytes) }
{}

/// After an admitted write, be it the last of several operations, the same range reads what was written: the value of a
/// poke in its size, the byte of a fill, the bytes that came with the operation, and those of a load file.
pub fn writes_are_read()
    ensures poke { (loads : List (ℕ × List ℕ)) (before : List MemOp) (m : Memory)
        (size at value : ℕ) → IsWhole m → Admitted m (Poke size at value)
        → read_of size (land loads (before ++ Poke size at value ∷ []) m) at ≡ Ok value }
    ensures fill { (loads : List (ℕ × List ℕ)) (before : List MemOp) (m : Memory) (at len byte : ℕ)
        → IsWhole m → Admitted m (Fill at len byte)
        → bytes_of (land loads (before ++ Fill at len byte ∷ []) m) at len
        ≡ Ok (replicate len byte) }
    ensures bytes { (loads : List (ℕ × List ℕ)) (before : List MemOp) (m : Memory) (at : ℕ)
        (part : List ℕ) → IsWhole m → Admitted m (Bytes at part)
        → bytes_of (land loads (before ++ Bytes at part ∷ []) m) at (length part) ≡ Ok part }
    ensures file { (loads : List (ℕ × List ℕ)) (before : List MemOp) (m : Memory) (load at len : ℕ)
        → IsWhole m → Admitted m (FromFile load at len) → IsBacked loads (FromFile load at len)
        → bytes_of (land loads (before ++ FromFile load at len ∷ []) m) at len
        ≡ Ok (load_bytes loads load) }
{}

/// What no operation covers is read as before.
pub fn else_reads_as_before()
    ensures bytes { (loads : List (ℕ × List ℕ)) (ops : List MemOp) (m : Memory) (at len : ℕ)
        → ((k : ℕ) → k < len → list_any (λ op. covers op (at + k)) ops ≡ false)
        → bytes_of (land loads ops m) at len ≡ bytes_of m at len }
    ensures read { (loads : List (ℕ × List ℕ)) (ops : List MemOp) (m : Memory) (size at : ℕ)
        → ((k : ℕ) → k < size / 8 → list_any (λ op. covers op (at + k)) ops ≡ false)
        → read_of size (land loads ops m) at ≡ read_of size m at }
{}

/// Reads of memory byte by byte: the byte at the lowest address is the most significant one.
pub fn read_rows()
    ensures read { map (λ (row : ℕ × ℕ). read_of row.0 worked_memory row.1) ((8, 0x1001)
        ∷ (16, 0x1002) ∷ (32, 0x1004) ∷ (8, 0x2003) ∷ (16, 0x3002) ∷ (32, 0x4000) ∷ [])
        ≡ Ok 0x12 ∷ Ok 0x1314 ∷ Ok 0x15161718 ∷ Ok 0x24 ∷ Ok 0x3334 ∷ Ok 0x41424344 ∷ [] }
    ensures fault { map (λ (row : ℕ × ℕ). read_of row.0 worked_memory row.1) ((8, 0x0FFF)
        ∷ (8, 0x1008) ∷ (32, 0x1005) ∷ (16, 0x1001) ∷ (32, 0x1002) ∷ (8, 0x3000) ∷ (16, 0x4000)
        ∷ (16, 0x2000) ∷ [])
        ≡ Err Outside ∷ Err Outside ∷ Err Outside ∷ Err Unaligned ∷ Err Unaligned ∷ Err WrongSize
        ∷ Err WrongSize ∷ Err WrongSize ∷ [] }
    ensures bytes { map (λ (row : ℕ × ℕ). bytes_of worked_memory row.0 row.1) ((0x1003, 3)
        ∷ (0x2001, 2) ∷ (0x3002, 2) ∷ (0x4000, 4) ∷ (0x3001, 2) ∷ (0x3002, 1) ∷ (0x4000, 2)
        ∷ (0x4002, 4) ∷ (0x1006, 3) ∷ [])
        ≡ Ok (0x14 ∷ 0x15 ∷ 0x16 ∷ []) ∷ Ok (0x22 ∷ 0x23 ∷ []) ∷ Ok (0x33 ∷ 0x34 ∷ [])
        ∷ Ok (0x41 ∷ 0x42 ∷ 0x43 ∷ 0x44 ∷ []) ∷ Err Unaligned ∷ Err Unaligned ∷ Err Unaligned
        ∷ Err Outside ∷ Err Outside ∷ [] }
{}

/// What operations leave of eight bytes, byte by byte.
pub fn landing_rows()
    ensures poke8 { bytes_of (land [] (Poke 8 0x1001 0xA1 ∷ []) worked_memory) 0x1000 8
        ≡ Ok (0x11 ∷ 0xA1 ∷ 0x13 ∷ 0x14 ∷ 0x15 ∷ 0x16 ∷ 0x17 ∷ 0x18 ∷ []) }
    ensures poke16 { bytes_of (land [] (Poke 16 0x1002 0xA1B2 ∷ []) worked_memory) 0x1000 8
        ≡ Ok (0x11 ∷ 0x12 ∷ 0xA1 ∷ 0xB2 ∷ 0x15 ∷ 0x16 ∷ 0x17 ∷ 0x18 ∷ []) }
    ensures poke32 { bytes_of (land [] (Poke 32 0x1004 0xA1B2C3D4 ∷ []) worked_memory) 0x1000 8
        ≡ Ok (0x11 ∷ 0x12 ∷ 0x13 ∷ 0x14 ∷ 0xA1 ∷ 0xB2 ∷ 0xC3 ∷ 0xD4 ∷ []) }
    ensures fill { bytes_of (land [] (Fill 0x1001 3 0xA1 ∷ []) worked_memory) 0x1000 8
        ≡ Ok (0x11 ∷ 0xA1 ∷ 0xA1 ∷ 0xA1 ∷ 0x15 ∷ 0x16 ∷ 0x17 ∷ 0x18 ∷ []) }
    ensures part { bytes_of (land [] (Bytes 0x1005 (0xA1 ∷ 0xB2 ∷ []) ∷ []) worked_memory) 0x1000 8
        ≡ Ok (0x11 ∷ 0x12 ∷ 0x13 ∷ 0x14 ∷ 0x15 ∷ 0xA1 ∷ 0xB2 ∷ 0x18 ∷ []) }
    ensures file { bytes_of (land ((0x1004, 0xC1 ∷ []) ∷ (0x1000, 0xA1 ∷ 0xB2 ∷ 0xC3 ∷ [])
        ∷ []) (FromFile 2 0x1000 3 ∷ []) worked_memory) 0x1000 8
        ≡ Ok (0xA1 ∷ 0xB2 ∷ 0xC3 ∷ 0x14 ∷ 0x15 ∷ 0x16 ∷ 0x17 ∷ 0x18 ∷ []) }
    ensures order { bytes_of (land [] (Fill 0x1001 3 0xA1 ∷ Poke 8 0x1002 0xB2
        ∷ []) worked_memory) 0x1000 8 ≡ Ok (0x11 ∷ 0xA1 ∷ 0xB2 ∷ 0xA1 ∷ 0x15 ∷ 0x16 ∷ 0x17 ∷ 0x18
        ∷ []) }
    ensures upset { bytes_of (upset_at worked_memory 0x1003 0xA1) 0x1000 8
        ≡ Ok (0x11 ∷ 0x12 ∷ 0x13 ∷ 0xA1 ∷ 0x15 ∷ 0x16 ∷ 0x17 ∷ 0x18 ∷ []) }
    ensures flag { (land [] (Protect 5 false ∷ []) worked_memory).guarded ≡ false ∷ false ∷ false
        ∷ false ∷ false ∷ true ∷ [] }
{}

/// Whether operations are admitted: the first fault of each.
pub fn admission_rows()
    ensures { map (admits_of worked_memory) (Poke 8 0x1001 0 ∷ Poke 16 0x1001 0 ∷ Poke 32 0x5000 0
        ∷ Poke 16 0x5001 0 ∷ Poke 8 0x3000 0 ∷ Fill 0x1FFF 4 0 ∷ Fill 0x5000 4 0
        ∷ Bytes 0x4002 (0 ∷ 0 ∷ []) ∷ FromFile 1 0x6002 2 ∷ FromFile 1 0x6000 4 ∷ Protect 5 false
        ∷ [])
        ≡ Ok tt ∷ Err Unaligned ∷ Err Protected ∷ Err Unaligned ∷ Err WrongSize ∷ Err Outside
        ∷ Err Protected ∷ Err Unaligned ∷ Err Protected ∷ Err Protected ∷ Ok tt ∷ [] }
{}
