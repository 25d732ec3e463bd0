// Which images have consistent metadata, and what each other one has at fault, computed from the definitions.
ghost use Rattle.std.specs.Prelude.{◌≡◌, ◌==◌, ◌+◌, Some, None, codes, find, option_map};
ghost use Rattle.nl_field.specs.Numbers.{shape_for};
ghost use Rattle.nl_field.specs.Page.{uncorrectable};
ghost use Rattle.nl_field.specs.Examples.{fresh_image, two_supers};
ghost use Rattle.nl_field.specs.ScanList.{seen_in};
ghost use Rattle.nl_field.specs.declared.place.What.TheVariants.{Super, Stamp, Inode, Pages, Entry, Pointer, Names, Charges, Crowded};
ghost use Rattle.nl_field.specs.Virtual.{virtual_bytes};
ghost use Rattle.nl_meta.specs.Committed.{committed_of, header_at, next_number};
ghost use Rattle.nl_meta.specs.Nodes.{committed_pointers, entry_named, pointer_at, super_of_pages};
ghost use Rattle.nl_test_volume_format.specs.Faults.{address_before, address_behind, address_shared, address_twice, behind_nodes, behind_size, entry_unspelled, file_as_root, illegal_numbers, in_a_ring, indirect_empty, indirect_outside, indirect_unspelled, names_behind, names_root, names_unused, no_super, one_name, one_name_in_two, one_page_name, other_pages, other_tag, pointer_before, pointer_behind};
ghost use Rattle.nl_test_volume_format.specs.Phases.{copied, page_of_two, ptr, two_entries, without_super, consistent_image, bad_super, bad_stamp, bad_inode, bad_pages, bad_entry, behind_entries, two_names, unreached, bad_pointer, bad_names, moved_page, with_journal, without_image, far_address, only_missing, blank_image};
ghost use Rattle.nl_test_volume_format.specs.LargeFiles.{file_of_pages, filled, list_of_filled, pages_of_pages, spread, lost, virtual_blocks};
ghost use Rattle.nl_meta.specs.Walk.{walk, phase_fault, opening_answer, answers_blank, answers_damaged, opens, place_of_pointer};
ghost use Rattle.nl_test_volume_format.specs.Examples.{image_of_a, hello_page, long_page};

/// The image that a format leaves is consistent.
pub fn fresh_is_consistent()
    ensures { walk fresh_image ≡ None }
{}

/// The image with a file is consistent.
pub fn a_is_consistent()
    ensures { walk (image_of_a hello_page) ≡ None }
{}

/// The page of the file is uncorrectable, as after an erase of its block that was cut short: its pointer is at fault.
pub fn erase_cut_short()
    ensures { walk (image_of_a uncorrectable) ≡ Some (record { place = 1; what = Pointer }) }
{}

/// A page with bytes behind the size of its file is at fault as its pointer.
pub fn not_zero_behind()
    ensures { walk (image_of_a long_page) ≡ Some (record { place = 1; what = Pointer }) }
{}

/// Each phase of the walk has an image that is at fault there first, with its place.
pub fn phases()
    ensures none { walk consistent_image ≡ None }
    ensures numbers { walk bad_super ≡ Some (record { place = 0; what = Super }) }
    ensures stamps { walk bad_stamp ≡ Some (record { place = 257; what = Stamp }) }
    ensures inodes { walk bad_inode ≡ Some (record { place = 2; what = Inode }) }
    ensures addresses { walk bad_pages ≡ Some (record { place = 71; what = Pages }) }
    ensures entries { walk bad_entry ≡ Some (record { place = 0; what = Entry }) }
    ensures behind { walk behind_entries ≡ Some (record { place = 0; what = Entry }) }
    ensures two { walk two_names ≡ Some (record { place = 0; what = Entry }) }
    ensures reached { walk unreached ≡ Some (record { place = 1; what = Entry }) }
    ensures pointers { walk bad_pointer ≡ Some (record { place = 1; what = Pointer }) }
    ensures names { walk bad_names ≡ Some (record { place = 257; what = Names }) }
    ensures moved { walk moved_page ≡ None }
    ensures two_pages { walk two_supers ≡ Some (record { place = 33; what = Stamp }) }
{}

/// The super page is there, and has the numbers of the medium, which are legal.
pub fn supers_at_fault()
    ensures pages { walk other_pages ≡ Some (record { place = 0; what = Super }) }
    ensures none { walk no_super ≡ Some (record { place = 0; what = Super }) }
    ensures illegal { walk illegal_numbers ≡ Some (record { place = 0; what = Super }) }
{}

/// Node 0 is a directory, direct pointers lie in the physical segment, and nothing stands behind the last node.
pub fn nodes_at_fault()
    ensures root { walk file_as_root ≡ Some (record { place = 0; what = Inode }) }
    ensures before { walk pointer_before ≡ Some (record { place = 1; what = Inode }) }
    ensures behind { walk pointer_behind ≡ Some (record { place = 1; what = Inode }) }
    ensures nodes { walk behind_nodes ≡ Some (record { place = 72; what = Inode }) }
{}

/// The addresses of a node lie behind the pages of nodes, each has one use, and that of a file holds pointers to the physical segment.
pub fn addresses_at_fault()
    ensures before { walk address_before ≡ Some (record { place = 70; what = Pages }) }
    ensures behind { walk address_behind ≡ Some (record { place = 103; what = Pages }) }
    ensures twice { walk address_twice ≡ Some (record { place = 71; what = Pages }) }
    ensures shared { walk address_shared ≡ Some (record { place = 71; what = Pages }) }
    ensures unspelled { walk indirect_unspelled ≡ Some (record { place = 72; what = Pages }) }
    ensures empty { walk indirect_empty ≡ Some (record { place = 72; what = Pages }) }
    ensures outside { walk indirect_outside ≡ Some (record { place = 72; what = Pages }) }
{}

/// An entry is spelled, and names a used node of the volume other than the root. The names of one directory differ. From the root each
/// node is reached.
pub fn entries_at_fault()
    ensures unspelled { walk entry_unspelled ≡ Some (record { place = 0; what = Entry }) }
    ensures root { walk names_root ≡ Some (record { place = 0; what = Entry }) }
    ensures unused { walk names_unused ≡ Some (record { place = 0; what = Entry }) }
    ensures behind { walk names_behind ≡ Some (record { place = 0; what = Entry }) }
    ensures twice { walk one_name ≡ Some (record { place = 0; what = Entry }) }
    ensures elsewhere { walk one_name_in_two ≡ None }
    ensures ring { walk in_a_ring ≡ Some (record { place = 1; what = Entry }) }
{}

/// A pointer stands before the size of its file, has a name of its own, and its page is told as that of its place.
pub fn pointers_at_fault()
    ensures size { walk behind_size ≡ Some (record { place = 1; what = Pointer }) }
    ensures name { walk one_page_name ≡ Some (record { place = 1; what = Pointer }) }
    ensures tag { walk other_tag ≡ Some (record { place = 1; what = Pointer }) }
{}

/// A transaction counts whose header and commit page have one number, whose addresses the volume has, and whose images are
/// all there.
pub fn journal()
    ensures counts { walk (with_journal 1) ≡ None }
    ensures count { option_map (λ rec. rec.count) (super_of_pages (committed_of (with_journal 1))) ≡ Some 2 }
    ensures other_number { walk (with_journal 2) ≡ None }
    ensures old_count { option_map (λ rec. rec.count) (super_of_pages (committed_of (with_journal 2))) ≡ Some 0 }
    ensures no_image { option_map (λ rec. rec.count) (super_of_pages (committed_of without_image)) ≡ Some 0 }
    ensures no_address { option_map (λ rec. rec.count) (super_of_pages (committed_of far_address)) ≡ Some 0 }
    ensures no_header { header_at (shape_for 32 32) (virtual_bytes far_address) ≡ None }
    ensures any_addresses { option_map (λ h. h.tag.index) (find (λ h. h.pointer.stamp == 4) (committed_pointers without_super)) ≡ Some 1 }
    ensures old_super { option_map (λ rec. rec.count) (super_of_pages (committed_of without_super)) ≡ Some 0 }
{}

/// The next transaction has a number above both that are spelled.
pub fn numbers()
    ensures none { next_number (shape_for 32 32) (virtual_bytes fresh_image) ≡ 1 }
    ensures both { next_number (shape_for 32 32) (virtual_bytes (with_journal 1)) ≡ 2 }
    ensures greater { next_number (shape_for 32 32) (virtual_bytes (with_journal 2)) ≡ 3 }
{}

/// The pointers of a file of 300 pages at the borders of the node, of its first range and of its end.
pub fn pointers_by_index()
    ensures last_direct { pointer_at (pages_of_pages 300 (λ i. ptr (256 + i) (10 + i))) (file_of_pages 300 (λ i. ptr (256 + i) (10 + i))) 7
        ≡ ptr 263 17 }
    ensures first_indirect { pointer_at (pages_of_pages 300 (λ i. ptr (256 + i) (10 + i)))
        (file_of_pages 300 (λ i. ptr (256 + i) (10 + i))) 8 ≡ ptr 264 18 }
    ensures last_of_range { pointer_at (pages_of_pages 300 (λ i. ptr (256 + i) (10 + i)))
        (file_of_pages 300 (λ i. ptr (256 + i) (10 + i))) 263 ≡ ptr 519 273 }
    ensures next_range { pointer_at (pages_of_pages 300 (λ i. ptr (256 + i) (10 + i))) (file_of_pages 300 (λ i. ptr (256 + i) (10 + i))) 264
        ≡ ptr 520 274 }
    ensures behind { pointer_at (pages_of_pages 300 (λ i. ptr (256 + i) (10 + i))) (file_of_pages 300 (λ i. ptr (256 + i) (10 + i))) 300
        ≡ ptr 0 0 }
    ensures no_range { pointer_at (pages_of_pages 300 (λ i. ptr (256 + i) (10 + i))) (file_of_pages 300 (λ i. ptr (256 + i) (10 + i))) 4103
        ≡ ptr 0 0 }
{}

/// An entry is found by its whole name.
pub fn entries_by_name()
    ensures first { option_map (λ e. e.ino) (entry_named page_of_two two_entries (codes "a")) ≡ Some 1 }
    ensures longer { option_map (λ e. e.ino) (entry_named page_of_two two_entries (codes "ab")) ≡ Some 2 }
    ensures other { option_map (λ e. e.ino) (entry_named page_of_two two_entries (codes "b")) ≡ None }
{}

/// A page of entries that is not there is at fault as an address, and its entries are passed over.
pub fn missing_entries()
    ensures addresses { walk only_missing ≡ Some (record { place = 71; what = Pages }) }
    ensures entries { phase_fault only_missing Entry ≡ None }
{}

/// What an opening answers on a blank image and on others.
pub fn opening_answers()
    ensures blank { opening_answer blank_image ≡ answers_blank }
    ensures damaged { opening_answer (image_of_a uncorrectable) ≡ answers_damaged (record { place = 1; what = Pointer }) }
    ensures consistent { opening_answer fresh_image ≡ opens }
{}

/// The first pointer is found under its name, and the second where its page was moved to. A page in the spare block is not taken.
pub fn places()
    ensures own { place_of_pointer moved_page (record { name = 256; stamp = 3 }) ≡ Some 256 }
    ensures moved { place_of_pointer moved_page (record { name = 257; stamp = 4 }) ≡ Some 258 }
    ensures in_spare { place_of_pointer copied (record { name = 256; stamp = 3 }) ≡ Some 288 }
{}

/// The list that a scan of a long file gives is the one that is written out.
pub fn long_lists()
    ensures full { seen_in (filled 480) ≡ list_of_filled 480 }
    ensures over { seen_in (filled 481) ≡ list_of_filled 481 }
{}

/// Files have 480 pages at most.
pub fn charges()
    ensures full { walk (filled 480) ≡ None }
    ensures over { walk (filled 481) ≡ Some (record { place = 0; what = Charges }) }
{}

/// A block of each segment has no page that is needed there alone, and at most 96 pointers are stale.
pub fn crowded()
    ensures room { walk (virtual_blocks 7) ≡ None }
    ensures no_room { walk (virtual_blocks 8) ≡ Some (record { place = 0; what = Crowded }) }
    ensures data_room { walk (spread 23) ≡ None }
    ensures no_data_room { walk (spread 24) ≡ Some (record { place = 1; what = Crowded }) }
    ensures few_stale { walk (lost 96) ≡ None }
    ensures many_stale { walk (lost 97) ≡ Some (record { place = 2; what = Crowded }) }
{}
