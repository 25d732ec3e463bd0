// The numbers of volumes, and records that are spelled and read back, computed from the definitions.
ghost use Rattle.std.specs.Prelude.{◌≡◌, ◌==◌, find, true, false, ◌∷◌, [], take, replicate, ◌++◌, codes, option_map, option_and_then};
ghost use Rattle.nl_field.specs.Numbers.{is_legal, shape_for};
ghost use Rattle.nl_field.specs.SpareRecord.{spare_bytes, spare_rec_of};
ghost use Rattle.nl_field.specs.SuperPage.{super_bytes, super_of};
ghost use Rattle.nl_field.specs.Journal.{header_bytes, header_of, commit_bytes, commit_of};
ghost use Rattle.nl_field.specs.Pointers.{no_pointer, indirect_bytes, indirect_of};
ghost use Rattle.nl_field.specs.Inode.{inode_bytes, inode_of};
ghost use Rattle.nl_field.specs.FileContent.{is_content};
ghost use Rattle.nl_tree_content.specs.ContentLaws.{has_page, is_touched};
ghost use Rattle.nl_field.specs.EntryRecord.{entry_bytes, entry_of};
ghost use Rattle.nl_field.specs.Examples.{fresh_image, root_inode, two_supers, one_stamp_two_addresses, short_page, two_copies};
ghost use Rattle.nl_field.specs.Medium.{stamp_on, readable_pages};
ghost use Rattle.nl_field.specs.Virtual.{map_bytes, newest, virtual_bytes};
ghost use Rattle.nl_field.specs.Page.{is_image};
ghost use Rattle.nl_field.specs.Scan.{agrees_below, next_stamp_of, least_wear, greatest_wear, super_version, zeros_from};
ghost use Rattle.nl_field.specs.ScanList.{is_lost_seen, owns_seen, place_seen, seen_in};
ghost use Rattle.nl_field.specs.Space.{virtual_spare, physical_spare, place_outside};
ghost use Rattle.nl_field.specs.declared.inode.Kind.{Kind};
ghost use Rattle.nl_field.specs.declared.spare.SpareRec.TheVariants.{Physical};

/// The numbers of the smallest volume, of 32 blocks of 32 pages.
pub fn numbers_32_32()
    ensures { shape_for 32 32 ≡ record { blocks = 32; pages = 32; nodes = 64; inode_pages = 4; meta = 32; vaddrs = 103; vblocks = 8; pblocks = 24; cap = 480 } }
{}

/// The numbers of a volume of 256 blocks of 64 pages.
pub fn numbers_256_64()
    ensures { shape_for 256 64 ≡ record { blocks = 256; pages = 64; nodes = 1024; inode_pages = 64; meta = 512; vaddrs = 643; vblocks = 15; pblocks = 241; cap = 15008 } }
{}

/// The numbers of a volume of 512 blocks of 64 pages.
pub fn numbers_512_64()
    ensures { shape_for 512 64 ≡ record { blocks = 512; pages = 64; nodes = 2048; inode_pages = 128; meta = 1024; vaddrs = 1219; vblocks = 24; pblocks = 488; cap = 30816 } }
{}

/// Of which counts of blocks and pages there is a volume: 32 to 4096 blocks of 32 to 256 pages, and not too many pages in all.
pub fn numbers_refused()
    ensures few_blocks { is_legal 31 32 ≡ false }
    ensures many_blocks { is_legal 4097 32 ≡ false }
    ensures few_pages { is_legal 32 31 ≡ false }
    ensures many_pages { is_legal 32 257 ≡ false }
    ensures too_large { is_legal 4096 128 ≡ false }
    ensures largest { is_legal 4096 64 ≡ true }
    ensures smallest { is_legal 32 32 ≡ true }
{}

/// The physical record of node 1, generation 1, index 0, stamp 5, wear 0.
pub fn example_spare()
    ensures written { spare_bytes (Physical (record { ino = 1; generation = 1; index = 0 }) 5 0)
        ≡ (2 ∷ 0 ∷ 0 ∷ 0 ∷ 0 ∷ 0 ∷ 0 ∷ 0 ∷ 5 ∷ 0 ∷ 0 ∷ 0 ∷ 0 ∷ 0 ∷ 0 ∷ 0 ∷ 1 ∷ 0 ∷ 0 ∷ 0 ∷ 1 ∷ []) ++ replicate 43 0 }
    ensures read { spare_rec_of ((2 ∷ 0 ∷ 0 ∷ 0 ∷ 0 ∷ 0 ∷ 0 ∷ 0 ∷ 5 ∷ 0 ∷ 0 ∷ 0 ∷ 0 ∷ 0 ∷ 0 ∷ 0 ∷ 1 ∷ 0 ∷ 0 ∷ 0 ∷ 1 ∷ []) ++ replicate 43 0)
        ≡ Some (Physical (record { ino = 1; generation = 1; index = 0 }) 5 0) }
    ensures no_zeros { spare_rec_of (replicate 64 0) ≡ None }
    ensures no_stamp { spare_rec_of (2 ∷ replicate 63 0) ≡ None }
{}

/// The head of a fresh super page, and that it is read back from its 4096 bytes.
pub fn fresh_super()
    ensures head { take 32 (super_bytes (record { version = 1; blocks = 32; pages = 32; count = 0 }))
        ≡ 78 ∷ 65 ∷ 77 ∷ 69 ∷ 76 ∷ 69 ∷ 83 ∷ 83 ∷ 1 ∷ 0 ∷ 0 ∷ 0 ∷ 32 ∷ 0 ∷ 0 ∷ 0 ∷ 32 ∷ 0 ∷ 0 ∷ 0 ∷ replicate 12 0 }
    ensures back { super_of (super_bytes (record { version = 1; blocks = 32; pages = 32; count = 0 }))
        ≡ Some (record { version = 1; blocks = 32; pages = 32; count = 0 }) }
{}

/// A header of two addresses, a directory node with one entry, and an entry are read back.
pub fn others_back()
    ensures header { header_of (header_bytes (record { number = 3; addresses = 0 ∷ 67 ∷ [] }))
        ≡ Some (record { number = 3; addresses = 0 ∷ 67 ∷ [] }) }
    ensures falling { header_of (header_bytes (record { number = 3; addresses = 67 ∷ 0 ∷ [] })) ≡ None }
    ensures commit { commit_of (commit_bytes (record { number = 3 })) ≡ Some (record { number = 3 }) }
    ensures inode { inode_of (inode_bytes (record { kind = Kind.Dir; generation = 0; size = 1; direct = replicate 8 no_pointer; addresses = 71 ∷ replicate 15 0 }))
        ≡ Some (record { kind = Kind.Dir; generation = 0; size = 1; direct = replicate 8 no_pointer; addresses = 71 ∷ replicate 15 0 }) }
    ensures unfilled { inode_of (inode_bytes (record { kind = Kind.Dir; generation = 0; size = 1; direct = replicate 8 no_pointer; addresses = replicate 16 0 })) ≡ None }
    ensures entry { entry_of (entry_bytes (record { ino = 1; generation = 1; name = codes "a" }))
        ≡ Some (record { ino = 1; generation = 1; name = codes "a" }) }
    ensures dots { entry_of (entry_bytes (record { ino = 1; generation = 1; name = codes ".." })) ≡ None }
    ensures indirect { indirect_of (indirect_bytes (record { name = 256; stamp = 9 } ∷ replicate 255 no_pointer))
        ≡ Some (record { name = 256; stamp = 9 } ∷ replicate 255 no_pointer) }
    ensures no_indirect { indirect_of (replicate 4096 0) ≡ None }
{}

/// An image of 32 by 32 as `format` leaves it: the root under stamp 1, the super page under stamp 2.
pub fn formatted_image()
    ensures super_page { option_map (λ r. stamp_on r) (newest fresh_image 0) ≡ Some 2 }
    ensures root { option_and_then (λ bytes. inode_of (take 256 bytes)) (virtual_bytes fresh_image 67) ≡ Some root_inode }
    ensures unwritten { virtual_bytes fresh_image 70 ≡ Some (replicate 4096 0) }
    ensures no_header { virtual_bytes fresh_image 1 ≡ None }
    ensures spares { virtual_spare fresh_image ≡ Some 1 }
    ensures data_spare { physical_spare fresh_image [] ≡ Some 8 }
{}

/// Of two pages of one address and stamp the one outside the spare block is taken.
pub fn newest_of_two()
    ensures outside { option_map (λ r. r.page) (newest two_supers 0) ≡ Some 33 }
    ensures spare { virtual_spare two_supers ≡ Some 0 }
{}

/// A page of another address is no copy, whatever its stamp.
pub fn copies_have_the_address()
    ensures { virtual_spare one_stamp_two_addresses ≡ Some 2 }
{}

/// An image that a format leaves is one, and a page that is too short is in none.
pub fn image_or_not()
    ensures fresh { is_image fresh_image ≡ true }
    ensures short { is_image short_page ≡ false }
{}

/// The place of a pointer is never in the spare block, and its own name only where that page holds the stamp.
pub fn places_of_pointers()
    ensures spare { physical_spare two_copies (3 ∷ []) ≡ Some 8 }
    ensures other { place_outside two_copies (Some 8) (record { name = 256; stamp = 3 }) ≡ Some 288 }
    ensures own { place_outside two_copies (Some 10) (record { name = 288; stamp = 3 }) ≡ Some 288 }
    ensures least { place_outside two_copies (Some 10) (record { name = 300; stamp = 3 }) ≡ Some 256 }
    ensures none { place_outside two_copies (Some 10) (record { name = 256; stamp = 4 }) ≡ None }
{}

/// What a scan tells of images: the next write sequence number, the version, the wear, and whether pages are those below others.
pub fn scanned()
    ensures next { next_stamp_of fresh_image ≡ 3 }
    ensures version { super_version fresh_image ≡ 1 }
    ensures junk { super_version two_supers ≡ 0 }
    ensures least { least_wear short_page ≡ 7 }
    ensures greatest { greatest_wear short_page ≡ 7 }
    ensures first { option_map (agrees_below two_supers) (find (λ r. r.page == 0) (readable_pages two_supers)) ≡ Some true }
    ensures differs { option_map (agrees_below two_supers) (find (λ r. r.page == 33) (readable_pages two_supers)) ≡ Some false }
    ensures behind { zeros_from (0 ∷ 5 ∷ 0 ∷ 0 ∷ []) ≡ 2 }
    ensures all_zero { zeros_from (0 ∷ 0 ∷ []) ≡ 0 }
{}

/// What a scan lists of two images, and what the list tells of pointers: a name is owned by the page of its stamp, or where no page
/// is readable.
pub fn listed()
    ensures lower { option_map (λ s. s.agrees) (find (λ s. s.page == 0) (seen_in two_supers)) ≡ Some true }
    ensures differs { option_map (λ s. s.agrees) (find (λ s. s.page == 33) (seen_in two_supers)) ≡ Some false }
    ensures zeros { option_map (λ s. s.zeros) (find (λ s. s.page == 288) (seen_in two_copies)) ≡ Some 5 }
    ensures own { owns_seen (shape_for 32 32) (seen_in two_copies) (record { name = 256; stamp = 3 }) ≡ true }
    ensures taken { owns_seen (shape_for 32 32) (seen_in two_copies) (record { name = 256; stamp = 4 }) ≡ false }
    ensures empty { owns_seen (shape_for 32 32) (seen_in two_copies) (record { name = 300; stamp = 4 }) ≡ true }
    ensures lost { is_lost_seen (shape_for 32 32) (seen_in two_copies) (record { name = 300; stamp = 4 }) ≡ true }
    ensures place { place_seen (shape_for 32 32) (seen_in two_copies) (Some 8) (record { name = 256; stamp = 3 }) ≡ Some 288 }
{}

/// A device's address reads as its value, an inode page as zeros where it has none, and one beyond the last as nothing.
pub fn addresses_read()
    ensures value { map_bytes (shape_for 32 32) (λ v. Some (1, codes "a")) 71 ≡ Some (codes "a") }
    ensures unwritten { map_bytes (shape_for 32 32) (λ v. None) 70 ≡ Some (replicate 4096 0) }
    ensures none { map_bytes (shape_for 32 32) (λ v. None) 71 ≡ None }
    ensures last { map_bytes (shape_for 32 32) (λ v. Some (1, codes "a")) 102 ≡ Some (codes "a") }
    ensures beyond { map_bytes (shape_for 32 32) (λ v. Some (1, codes "a")) 103 ≡ None }
{}

/// Two bytes across a border lie in two pages, no bytes in none. Of a file of one byte the page behind it is none of its pages.
pub fn pages_touched()
    ensures first { is_touched 4095 2 0 ≡ true }
    ensures second { is_touched 4095 2 1 ≡ true }
    ensures before { is_touched 4096 1 0 ≡ false }
    ensures behind { is_touched 4095 1 1 ≡ false }
    ensures no_bytes { is_touched 4096 0 1 ≡ false }
    ensures there { has_page (record { size = 4097; pages = (1, codes "a") ∷ [] }) 1 ≡ true }
    ensures hole { has_page (record { size = 4097; pages = (1, codes "a") ∷ [] }) 0 ≡ false }
{}

/// A file without pages is a content, one with a short page or with a page past its size is none.
pub fn content_or_not()
    ensures hole { is_content (record { size = 5000; pages = [] }) ≡ true }
    ensures short { is_content (record { size = 5000; pages = (1, codes "a") ∷ [] }) ≡ false }
    ensures past { is_content (record { size = 4096; pages = (1, []) ∷ [] }) ≡ false }
    ensures page { is_content (record { size = 1; pages = (0, 97 ∷ replicate 4095 0) ∷ [] }) ≡ true }
    ensures behind { is_content (record { size = 0; pages = (0, 97 ∷ replicate 4095 0) ∷ [] }) ≡ false }
{}
