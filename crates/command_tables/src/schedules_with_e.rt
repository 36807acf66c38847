use cache_table::{CacheEvent, CacheState};
use directory_table::{DirectoryEvent, DirectoryState};
use tables::CellPlace;

/// The schedules of MSI+E, as those of MSI are.
pub(crate) const SCHEDULES_WITH_E: [(CellPlace, &str); 39] = [
    (
        CellPlace::Cache(CacheState::IsD, CacheEvent::DataDirZero),
        "ask 0 0 load\nrequest 0 0\nresponse 0 0\nask 0 0 replace\nask 1 0 load\nrequest 0 1\nrequest 0 0\nforward 0 0\n\
         forward 0 0\nresponse 0 0\nresponse 0 0\nask 0 0 load\nrequest 0 0\n",
    ),
    (
        CellPlace::Cache(CacheState::IsD, CacheEvent::DataOwner),
        "ask 0 0 load\nrequest 0 0\nresponse 0 0\nask 1 0 load\nrequest 0 0\nforward 0 0\nresponse 0 1\n",
    ),
    (
        CellPlace::Cache(CacheState::IsD, CacheEvent::DataDirExcl),
        "ask 0 0 load\nrequest 0 0\n",
    ),
    (
        CellPlace::Cache(CacheState::ImAd, CacheEvent::DataDirZero),
        "ask 0 0 store 5\nrequest 0 0\n",
    ),
    (
        CellPlace::Cache(CacheState::ImAd, CacheEvent::DataOwner),
        "ask 0 0 load\nrequest 0 0\nresponse 0 0\nask 1 0 store 5\nrequest 0 0\nforward 0 0\n",
    ),
    (
        CellPlace::Cache(CacheState::ImAd, CacheEvent::InvAck),
        "ask 0 0 load\nrequest 0 0\nresponse 0 0\nask 1 0 load\nrequest 0 0\nforward 0 0\nresponse 0 0\nresponse 0 0\n\
         ask 2 0 store 5\nrequest 0 0\nforward 0 0\nforward 0 1\n",
    ),
    (
        CellPlace::Cache(CacheState::ImA, CacheEvent::InvAck),
        "ask 0 0 load\nrequest 0 0\nresponse 0 0\nask 1 0 load\nrequest 0 0\nforward 0 0\nresponse 0 0\nresponse 0 0\n\
         ask 2 0 store 5\nrequest 0 0\nforward 0 0\nforward 0 1\nresponse 0 0\n",
    ),
    (
        CellPlace::Cache(CacheState::ImA, CacheEvent::LastInvAck),
        "ask 0 0 load\nrequest 0 0\nresponse 0 0\nask 0 0 replace\nask 1 0 load\nrequest 0 1\nrequest 0 0\nforward 0 0\n\
         forward 0 0\nresponse 0 0\nresponse 0 0\nask 0 0 store 5\nrequest 0 0\nforward 0 1\nresponse 0 0\n",
    ),
    (
        CellPlace::Cache(CacheState::S, CacheEvent::Inv),
        "ask 0 0 load\nrequest 0 0\nresponse 0 0\nask 1 0 load\nrequest 0 0\nforward 0 0\nresponse 0 0\nresponse 0 0\n\
         ask 0 0 store 5\nrequest 0 0\nresponse 0 0\n",
    ),
    (
        CellPlace::Cache(CacheState::SmAd, CacheEvent::Inv),
        "ask 0 0 load\nrequest 0 0\nresponse 0 0\nask 1 0 load\nrequest 0 0\nforward 0 0\nresponse 0 0\nresponse 0 0\n\
         ask 0 0 store 5\nrequest 0 0\nresponse 0 0\nask 1 0 store 5\nrequest 0 0\n",
    ),
    (
        CellPlace::Cache(CacheState::SmAd, CacheEvent::DataDirZero),
        "ask 0 0 load\nrequest 0 0\nresponse 0 0\nask 1 0 load\nrequest 0 0\nforward 0 0\nresponse 0 0\nresponse 0 0\n\
         ask 0 0 store 5\nrequest 0 0\nforward 0 1\nresponse 0 1\n",
    ),
    (
        CellPlace::Cache(CacheState::SmAd, CacheEvent::InvAck),
        "ask 0 0 load\nrequest 0 0\nresponse 0 0\nask 1 0 load\nrequest 0 0\nforward 0 0\nresponse 0 0\nresponse 0 0\n\
         ask 0 0 store 5\nrequest 0 0\nforward 0 1\n",
    ),
    (
        CellPlace::Cache(CacheState::SmA, CacheEvent::InvAck),
        "ask 0 0 load\nrequest 0 0\nresponse 0 0\nask 1 0 load\nrequest 0 0\nforward 0 0\nresponse 0 0\nresponse 0 0\n\
         ask 0 0 store 5\nask 2 0 load\nrequest 0 1\nrequest 0 0\nforward 0 1\nresponse 0 0\nforward 0 2\nresponse 0 0\n",
    ),
    (
        CellPlace::Cache(CacheState::SmA, CacheEvent::LastInvAck),
        "ask 0 0 load\nrequest 0 0\nresponse 0 0\nask 1 0 load\nrequest 0 0\nforward 0 0\nresponse 0 0\nresponse 0 0\n\
         ask 0 0 store 5\nrequest 0 0\nforward 0 1\nresponse 0 0\n",
    ),
    (
        CellPlace::Cache(CacheState::M, CacheEvent::FwdGetS),
        "ask 0 0 load\nask 1 0 store 5\nrequest 0 1\nrequest 0 0\nresponse 0 0\n",
    ),
    (
        CellPlace::Cache(CacheState::M, CacheEvent::FwdGetM),
        "ask 0 0 store 5\nrequest 0 0\nresponse 0 0\nask 1 0 store 5\nrequest 0 0\n",
    ),
    (
        CellPlace::Cache(CacheState::MiA, CacheEvent::FwdGetS),
        "ask 0 0 load\nrequest 0 0\nresponse 0 0\nask 0 0 replace\nask 1 0 load\nrequest 0 1\nrequest 0 0\n",
    ),
    (
        CellPlace::Cache(CacheState::MiA, CacheEvent::FwdGetM),
        "ask 0 0 load\nrequest 0 0\nresponse 0 0\nask 0 0 replace\nask 1 0 store 5\nrequest 0 1\nrequest 0 0\n",
    ),
    (
        CellPlace::Cache(CacheState::MiA, CacheEvent::PutAck),
        "ask 0 0 load\nrequest 0 0\nresponse 0 0\nask 0 0 replace\nrequest 0 0\n",
    ),
    (
        CellPlace::Cache(CacheState::SiA, CacheEvent::Inv),
        "ask 0 0 load\nrequest 0 0\nresponse 0 0\nask 0 0 replace\nask 1 0 load\nrequest 0 1\nforward 0 0\nresponse 0 0\n\
         response 0 0\nask 1 0 store 5\nrequest 0 1\nrequest 0 0\nresponse 0 0\n",
    ),
    (
        CellPlace::Cache(CacheState::SiA, CacheEvent::PutAck),
        "ask 0 0 load\nrequest 0 0\nresponse 0 0\nask 0 0 replace\nask 1 0 load\nrequest 0 1\nrequest 0 0\nforward 0 0\n\
         response 0 0\nresponse 0 0\n",
    ),
    (
        CellPlace::Cache(CacheState::IiA, CacheEvent::PutAck),
        "ask 0 0 load\nrequest 0 0\nresponse 0 0\nask 0 0 replace\nask 1 0 store 5\nrequest 0 1\nrequest 0 0\n\
         forward 0 0\nresponse 0 0\n",
    ),
    (
        CellPlace::Cache(CacheState::E, CacheEvent::FwdGetS),
        "ask 0 0 load\nrequest 0 0\nresponse 0 0\nask 1 0 load\nrequest 0 0\n",
    ),
    (
        CellPlace::Cache(CacheState::E, CacheEvent::FwdGetM),
        "ask 0 0 load\nrequest 0 0\nresponse 0 0\nask 1 0 store 5\nrequest 0 0\n",
    ),
    (
        CellPlace::Directory(DirectoryState::I, DirectoryEvent::GetS),
        "ask 0 0 load\n",
    ),
    (
        CellPlace::Directory(DirectoryState::I, DirectoryEvent::GetM),
        "ask 0 0 store 5\n",
    ),
    (
        CellPlace::Directory(DirectoryState::I, DirectoryEvent::PutSNotLast),
        "ask 0 0 load\nrequest 0 0\nresponse 0 0\nask 1 0 load\nrequest 0 0\nforward 0 0\nresponse 0 0\nresponse 0 0\n\
         ask 0 0 store 5\nrequest 0 0\nresponse 0 0\nask 1 0 replace\nforward 0 1\nresponse 0 0\nask 0 0 replace\n\
         request 0 1\nforward 0 0\n",
    ),
    (
        CellPlace::Directory(DirectoryState::I, DirectoryEvent::PutMNonOwner),
        "ask 0 0 load\nrequest 0 0\nresponse 0 0\nask 0 0 replace\nask 1 0 store 5\nrequest 0 1\nforward 0 0\n\
         response 0 0\nask 1 0 replace\nrequest 0 1\nforward 0 1\n",
    ),
    (
        CellPlace::Directory(DirectoryState::S, DirectoryEvent::GetS),
        "ask 0 0 load\nrequest 0 0\nresponse 0 0\nask 0 0 replace\nask 1 0 load\nrequest 0 1\nrequest 0 0\nforward 0 0\n\
         forward 0 0\nresponse 0 0\nresponse 0 0\nask 0 0 load\n",
    ),
    (
        CellPlace::Directory(DirectoryState::S, DirectoryEvent::GetM),
        "ask 0 0 load\nrequest 0 0\nresponse 0 0\nask 1 0 load\nrequest 0 0\nforward 0 0\nresponse 0 0\nresponse 0 0\n\
         ask 0 0 store 5\n",
    ),
    (
        CellPlace::Directory(DirectoryState::S, DirectoryEvent::PutSNotLast),
        "ask 0 0 load\nrequest 0 0\nresponse 0 0\nask 1 0 load\nrequest 0 0\nforward 0 0\nresponse 0 0\nresponse 0 0\n\
         ask 0 0 replace\n",
    ),
    (
        CellPlace::Directory(DirectoryState::S, DirectoryEvent::PutSLast),
        "ask 0 0 load\nrequest 0 0\nresponse 0 0\nask 0 0 replace\nask 1 0 load\nrequest 0 1\nrequest 0 0\nforward 0 0\n\
         forward 0 0\nresponse 0 0\nresponse 0 0\nask 1 0 replace\n",
    ),
    (
        CellPlace::Directory(DirectoryState::S, DirectoryEvent::PutMNonOwner),
        "ask 0 0 load\nrequest 0 0\nresponse 0 0\nask 0 0 replace\nask 1 0 load\nrequest 0 1\nforward 0 0\nresponse 0 0\n\
         response 0 0\n",
    ),
    (
        CellPlace::Directory(DirectoryState::M, DirectoryEvent::GetS),
        "ask 0 0 load\nrequest 0 0\nresponse 0 0\nask 1 0 load\n",
    ),
    (
        CellPlace::Directory(DirectoryState::M, DirectoryEvent::GetM),
        "ask 0 0 load\nrequest 0 0\nresponse 0 0\nask 1 0 store 5\n",
    ),
    (
        CellPlace::Directory(DirectoryState::M, DirectoryEvent::PutSNotLast),
        "ask 0 0 load\nrequest 0 0\nresponse 0 0\nask 1 0 load\nrequest 0 0\nforward 0 0\nresponse 0 0\nresponse 0 0\n\
         ask 0 0 store 5\nrequest 0 0\nresponse 0 0\nask 1 0 replace\nforward 0 1\nresponse 0 0\n",
    ),
    (
        CellPlace::Directory(DirectoryState::M, DirectoryEvent::PutMOwner),
        "ask 0 0 load\nrequest 0 0\nresponse 0 0\nask 0 0 replace\n",
    ),
    (
        CellPlace::Directory(DirectoryState::M, DirectoryEvent::PutMNonOwner),
        "ask 0 0 load\nrequest 0 0\nresponse 0 0\nask 0 0 replace\nask 1 0 store 5\nrequest 0 1\nforward 0 0\n\
         response 0 0\n",
    ),
    (
        CellPlace::Directory(DirectoryState::SD, DirectoryEvent::Data),
        "ask 0 0 load\nrequest 0 0\nresponse 0 0\nask 1 0 load\nrequest 0 0\nforward 0 0\nresponse 0 0\n",
    ),
];
