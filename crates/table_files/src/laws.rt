//! Laws of the definitions, as contracts of functions that do nothing. Worked rows stand for themselves: their bytes are
//! written from the layout, and none is made by another definition.

ghost use Rattle.std.specs.Prelude.{◌≡◌, ◌<◌, ◌≤◌, ◌↔◌, ◌⊎◌, All, ℕ, ◌+◌, ◌-◌, List, [], ◌∷◌, ◌++◌, length, map, take, replicate, slice_index_or, slice_set, Bool, true, false, Option, Some, None};
ghost use Rattle.table_files.specs.declared.kinds.TableKind.{TableKind};
ghost use Rattle.table_files.specs.declared.kinds.TableKind.TheVariants.{AppMon, EventMon, ExeCount, MsgActs, Ats, Rts, Dwell, Eeprom, Memory, Wdt, Adt};
ghost use Rattle.table_files.specs.declared.fault.EntryFault.{EntryFault};
ghost use Rattle.table_files.specs.declared.fault.FileFault.TheVariants.{Short, ContentType, Subtype, Partial, Name, Size, LoadCrc};
ghost use Rattle.table_files.specs.Entries.{first_fault, IsFirstReason};
ghost use Rattle.table_files.specs.Faults.{file_fault_number};
ghost use Rattle.table_files.specs.Kinds.{IsTable, IsKnown, named_kind, fits_kind};
ghost use Rattle.table_files.specs.Headers.{IsFile, IsTableOf, IsLoadOf, content_type, subtype, table_offset, table_size, table_name, load_size, load_crc, is_load_size, is_load, kind_of_file, payload_of_file, address_of_file, file_fault_of};
ghost use Rattle.table_files.specs.Files.{AreFiles, file_at, kind_at, loads_of, IsLoadable};
ghost use Rattle.table_files.specs.Rows.{dwell_headers, dwell_file, load_file, eeprom_name, memory_name, appmon_name, eventmon_name, execount_name, msgacts_name};

/// The files without a fault are those with the headers of a known table, or of bytes to be loaded with their check, and no
/// file is two of these.
pub fn accepted_files_have_headers()
    ensures accepted { (file : List ℕ) → IsFile file
        ↔ (((kind : TableKind) × IsTableOf file kind) ⊎ IsLoadOf file) }
    ensures kind { (file : List ℕ) (kind : TableKind) → (kind_of_file file ≡ Some kind)
        ↔ IsTableOf file kind }
    ensures load { (file : List ℕ) → (IsFile file × (is_load file ≡ true)) ↔ IsLoadOf file }
{}

/// The load files among the files that are held have 1 to 65,536 bytes each.
pub fn load_files_have_bytes()
    ensures { (files : List (List ℕ)) → AreFiles files → All IsLoadable (loads_of files) }
{}

/// The numbers of table files are those from 1 to the number of files at which a table file stands; its kind is the number's.
pub fn table_files_have_numbers()
    ensures { (files : List (List ℕ)) (n : ℕ) (kind : TableKind) → (kind_at files n ≡ Some kind)
        ↔ ((1 ≤ n) × (n ≤ length files) × (kind_of_file (file_at files n) ≡ Some kind)) }
{}

/// The payload of a table has the size of its kind.
pub fn payloads_have_the_kinds_size()
    ensures { (file : List ℕ) (kind : TableKind) → kind_of_file file ≡ Some kind
        → IsTable kind (length (payload_of_file file)) }
{}

/// The kinds whose tables are known by a name: exactly these are the kinds of files.
pub fn known_kinds()
    ensures named { (kind : TableKind) → ((field : List ℕ) × (named_kind field ≡ Some kind))
        ↔ IsKnown kind }
    ensures files { (file : List ℕ) (kind : TableKind) → kind_of_file file ≡ Some kind
        → IsKnown kind }
{}

/// What is told of entries is the first reason to refuse one, and nothing exactly where no entry has a reason.
pub fn first_faults()
    ensures told { (reasons : List (Option ℕ)) (place reason : ℕ)
        → IsFirstReason reasons place reason
        → first_fault (λ r. r) 1 reasons ≡ Some (record { entry = place + 1; reason = reason }) }
    ensures first { (reasons : List (Option ℕ)) (fault : EntryFault)
        → first_fault (λ r. r) 1 reasons ≡ Some fault
        → (1 ≤ fault.entry) × IsFirstReason reasons (fault.entry - 1) fault.reason }
    ensures none { (reasons : List (Option ℕ)) → (first_fault (λ r. r) 1 reasons ≡ None)
        ↔ ((k : ℕ) → k < length reasons → slice_index_or reasons k None ≡ None) }
{}

/// The names of the known tables, byte by byte.
pub fn name_rows()
    ensures dwell { map (λ n. named_kind (0x4D ∷ 0x44 ∷ 0x2E ∷ 0x44 ∷ 0x57 ∷ 0x45 ∷ 0x4C ∷ 0x4C
        ∷ 0x5F ∷ 0x54 ∷ 0x41 ∷ 0x42 ∷ 0x4C ∷ 0x45 ∷ n ∷ replicate 25 0)) (0x30 ∷ 0x31 ∷ 0x32 ∷ 0x33
        ∷ 0x34 ∷ 0x35 ∷ [])
        ≡ None ∷ Some (Dwell 1) ∷ Some (Dwell 2) ∷ Some (Dwell 3) ∷ Some (Dwell 4) ∷ None ∷ [] }
    ensures eeprom { named_kind eeprom_name ≡ Some Eeprom }
    ensures memory { named_kind memory_name ≡ Some Memory }
    ensures limits { map (λ (letters : List ℕ). named_kind ((0x4C ∷ 0x43 ∷ 0x2E ∷ letters) ++ 0x44
        ∷ 0x54 ∷ 0x5F ∷ 0x54 ∷ 0x62 ∷ 0x6C ∷ replicate 30 0)) ((0x57 ∷ []) ∷ (0x41 ∷ [])
        ∷ (0x58 ∷ []) ∷ []) ≡ Some Wdt ∷ Some Adt ∷ None ∷ [] }
    ensures health { map named_kind (appmon_name ∷ eventmon_name ∷ execount_name ∷ msgacts_name
        ∷ []) ≡ Some AppMon ∷ Some EventMon ∷ Some ExeCount ∷ Some MsgActs ∷ [] }
    ensures absolute { map (λ n. named_kind (0x53 ∷ 0x43 ∷ 0x2E ∷ 0x41 ∷ 0x54 ∷ 0x53 ∷ 0x5F ∷ 0x54
        ∷ 0x42 ∷ 0x4C ∷ n ∷ replicate 29 0)) (0x30 ∷ 0x31 ∷ 0x32 ∷ 0x33 ∷ []) ≡ None ∷ Some (Ats 1)
        ∷ Some (Ats 2) ∷ None ∷ [] }
    ensures relative { map (λ (digits : List ℕ). named_kind ((0x53 ∷ 0x43 ∷ 0x2E ∷ 0x52 ∷ 0x54
        ∷ 0x53 ∷ 0x5F ∷ 0x54 ∷ 0x42 ∷ 0x4C ∷ digits) ++ replicate 27 0)) ((0x30 ∷ 0x30 ∷ 0x30 ∷ [])
        ∷ (0x30 ∷ 0x30 ∷ 0x31 ∷ []) ∷ (0x30 ∷ 0x30 ∷ 0x39 ∷ []) ∷ (0x30 ∷ 0x31 ∷ 0x30 ∷ [])
        ∷ (0x30 ∷ 0x36 ∷ 0x34 ∷ []) ∷ (0x30 ∷ 0x36 ∷ 0x35 ∷ []) ∷ (0x31 ∷ 0x30 ∷ 0x30 ∷ []) ∷ [])
        ≡ None ∷ Some (Rts 1) ∷ Some (Rts 9) ∷ Some (Rts 10) ∷ Some (Rts 64) ∷ None ∷ None ∷ [] }
    ensures padded { named_kind (slice_set eeprom_name 39 1) ≡ None }
    ensures whole { named_kind (slice_set eeprom_name 14 0) ≡ None }
{}

/// How many bytes the payload of each kind has: the most that it may have, and one more.
pub fn size_rows()
    ensures fixed { map {B = Bool × Bool × Bool} (λ (row : TableKind
        × ℕ). (fits_kind row.0 (row.1 - 1), fits_kind row.0 row.1, fits_kind row.0 (row.1 + 1)))
        ((AppMon, 768) ∷ (EventMon, 384) ∷ (ExeCount, 704) ∷ (MsgActs, 544) ∷ (Dwell 4, 204)
        ∷ (Eeprom, 192) ∷ (Memory, 192) ∷ (Wdt, 512) ∷ (Adt, 640) ∷ [])
        ≡ replicate 9 (false, true, false) }
    ensures most { map {B = Bool × Bool × Bool} (λ (row : TableKind
        × ℕ). (fits_kind row.0 0, fits_kind row.0 row.1, fits_kind row.0 (row.1 + 1)))
        ((Ats 2, 65536) ∷ (Rts 64, 2048) ∷ [])
        ≡ replicate 2 (true, true, false) }
{}

/// The number of each fault.
pub fn fault_rows()
    ensures { map file_fault_number (Short ∷ ContentType ∷ Subtype ∷ Partial ∷ Name ∷ Size ∷ LoadCrc
        ∷ []) ≡ 1 ∷ 2 ∷ 3 ∷ 4 ∷ 5 ∷ 6 ∷ 7 ∷ [] }
{}

/// The fields of a dwell table's file and of a file that is to be loaded, byte by byte.
pub fn header_rows()
    ensures content { content_type dwell_file ≡ 0x63464531 }
    ensures sort { subtype dwell_file ≡ 8 }
    ensures offset { table_offset (slice_set (slice_set dwell_file 68 1) 71 2) ≡ 0x01000002 }
    ensures size { table_size (slice_set dwell_file 72 1) ≡ 0x010000CC }
    ensures name { table_name dwell_file ≡ 0x4D ∷ 0x44 ∷ 0x2E ∷ 0x44 ∷ 0x57 ∷ 0x45 ∷ 0x4C ∷ 0x4C
        ∷ 0x5F ∷ 0x54 ∷ 0x41 ∷ 0x42 ∷ 0x4C ∷ 0x45 ∷ 0x33 ∷ replicate 25 0 }
    ensures kind { kind_of_file dwell_file ≡ Some (Dwell 3) }
    ensures payload { payload_of_file dwell_file ≡ replicate 204 0x77 }
    ensures load { is_load load_file ≡ true }
    ensures address { address_of_file load_file ≡ 0x12345678 }
    ensures load_size { load_size (slice_set load_file 68 1) ≡ 0x01000003 }
    ensures load_crc { load_crc (slice_set load_file 72 1) ≡ 0x0100CD40 }
    ensures bytes { payload_of_file load_file ≡ 0xC1 ∷ 0xC2 ∷ 0xC3 ∷ [] }
    ensures loads { loads_of (load_file ∷ dwell_file ∷ (slice_set load_file 67 0x79) ∷ [])
        ≡ (0x12345678, 0xC1 ∷ 0xC2 ∷ 0xC3 ∷ []) ∷ (0x12345679, 0xC1 ∷ 0xC2 ∷ 0xC3 ∷ []) ∷ [] }
    ensures load_sizes { map is_load_size (0 ∷ 1 ∷ 65536 ∷ 65537 ∷ []) ≡ false ∷ true ∷ true ∷ false
        ∷ [] }
{}

/// The first fault of a file: each in a file that has no other, and then in files that have all later ones too.
pub fn fault_order_rows()
    ensures none { file_fault_of dwell_file ≡ None }
    ensures alone { map file_fault_of (take 63 dwell_file ∷ slice_set dwell_file 0 0x64
        ∷ slice_set dwell_file 7 9 ∷ take 115 dwell_file ∷ slice_set dwell_file 71 1
        ∷ slice_set dwell_file 90 0x35 ∷ slice_set dwell_file 75 0xCD ∷ take 319 dwell_file ∷ [])
        ≡ Some Short ∷ Some ContentType ∷ Some Subtype ∷ Some Short ∷ Some Partial ∷ Some Name
        ∷ Some Size ∷ Some Size ∷ [] }
    ensures longer { file_fault_of (slice_set dwell_file 75 0xCD ++ 0x77 ∷ []) ≡ Some Size }
    ensures first { map (λ n. file_fault_of (take n (replicate 116 0xFF))) (63 ∷ 64 ∷ [])
        ≡ Some Short ∷ Some ContentType ∷ [] }
    ensures later { map file_fault_of ((take 4 dwell_headers ++ replicate 60 0xFF)
        ∷ (take 8 dwell_headers ++ replicate 107 0xFF)
        ∷ (take 8 dwell_headers ++ replicate 108 0xFF)
        ∷ (take 72 dwell_headers ++ replicate 44 0xFF) ∷ [])
        ≡ Some Subtype ∷ Some Short ∷ Some Partial ∷ Some Name ∷ [] }
{}

/// The first fault of a file that is to be loaded: each in a file that has no other, and then in files that have all later
/// ones too.
pub fn load_fault_rows()
    ensures none { file_fault_of load_file ≡ None }
    ensures reserved { file_fault_of (slice_set load_file 79 0) ≡ None }
    ensures alone { map file_fault_of (take 63 load_file ∷ slice_set load_file 0 0x64
        ∷ slice_set load_file 7 0x65 ∷ take 79 load_file ∷ slice_set load_file 71 2
        ∷ slice_set load_file 71 4 ∷ take 82 load_file ∷ (load_file ++ 0xC4 ∷ [])
        ∷ slice_set load_file 75 0x41 ∷ slice_set load_file 72 1 ∷ slice_set load_file 82 0xC2 ∷ [])
        ≡ Some Short ∷ Some ContentType ∷ Some Subtype ∷ Some Short ∷ Some Size ∷ Some Size
        ∷ Some Size ∷ Some Size ∷ Some LoadCrc ∷ Some LoadCrc ∷ Some LoadCrc ∷ [] }
    ensures empty { file_fault_of (slice_set (take 80 load_file) 71 0) ≡ Some Size }
    ensures later { map file_fault_of ((take 8 load_file ++ replicate 71 0xFF)
        ∷ (take 8 load_file ++ replicate 72 0xFF) ∷ slice_set (slice_set load_file 71 2) 75 0 ∷ [])
        ≡ Some Short ∷ Some Size ∷ Some Size ∷ [] }
{}
