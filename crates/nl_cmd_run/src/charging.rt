ghost use Rattle.std.specs.Prelude.{◌≡◌};

use nl_cmd_course::Charges;
use nl_volume::VolumeReport;

// What the tree takes of a volume, as its report tells it.
pub(crate) fn charges_of(report: &VolumeReport) -> Charges
    ensures pages { result.pages ≡ report.now.data_pages }
    ensures nodes { result.nodes ≡ report.now.nodes }
    ensures meta { result.meta ≡ report.now.meta }
{
    Charges {
        pages: report.data_pages,
        nodes: report.nodes,
        meta: report.meta,
    }
}
