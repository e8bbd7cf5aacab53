//! What the receipts of a closed vault's chits say of its entries, as the contract of a function that does nothing.
ghost use Rattle.std.specs.Prelude.{◌≡◌, ◌+◌, List, length};
ghost use Rattle.receipt_lock.specs.Chits.{Holder, all_mine};
ghost use Rattle.receipt_lock.specs.Receipts.{IsSettled, EachHasOneReceipt, EachReceiptStands, AddsUp};

/// Where a closed vault's list is settled by the chits' receipts, as `Vault::close` ensures, each entry that was added stands
/// in exactly one chit, once; each receipt is for such an entry; and the entries are those at first and those of the receipts.
pub fn each_entry_has_one_receipt<E>()
    ensures one { (begun now : List E) (chits : List (Holder E)) → IsSettled begun now chits →
        EachHasOneReceipt begun now chits }
    ensures stands { (begun now : List E) (chits : List (Holder E)) → IsSettled begun now chits →
        EachReceiptStands begun now chits }
    ensures entries { (begun now : List E) (chits : List (Holder E)) → IsSettled begun now chits →
        AddsUp begun now chits }
    ensures count { (begun now : List E) (chits : List (Holder E)) → IsSettled begun now chits →
        length now ≡ length begun + length (all_mine chits) }
{}
